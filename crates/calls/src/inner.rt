// What a call answers to the numbers of a request, which are of its parameters' types. Each function writes the reply into a lent
// buffer from a place of it on, and returns the place after it.
//
// A function for each call, and no generic one: calls differ in how many parameters they take and of which types, and each contract
// names its call's row of the table (`takes_of`, `answers_of`), so that neither `Ready` nor the answer is one fact of them all.
pub mod date_times;
pub mod dates;
pub mod durations;
pub mod sums;
pub mod times;
