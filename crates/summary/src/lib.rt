// What a person is shown of a reading: quality codes counted and drawn as marks, and the L plane as grey values.
#![tactic(auto)]

// The L plane as grey values.
pub mod grey;

// Codes and blocks counted, and the line of marks.
pub mod marks;
