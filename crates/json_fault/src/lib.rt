//! Where a text is not JSON, why, and what could have come there.
#![tactic(auto)]

mod classes;
mod expected;
mod exponent;
mod fault;
mod number;
mod string;

pub use classes::{
    EXPECTED_A, EXPECTED_ARRAY_END, EXPECTED_COLON, EXPECTED_COMMA, EXPECTED_DIGIT, EXPECTED_E,
    EXPECTED_END, EXPECTED_ESCAPE, EXPECTED_EXPONENT, EXPECTED_HEX_DIGIT, EXPECTED_KEY, EXPECTED_L,
    EXPECTED_LOW_HALF, EXPECTED_OBJECT_END, EXPECTED_POINT, EXPECTED_R, EXPECTED_S, EXPECTED_SIGN,
    EXPECTED_STRING, EXPECTED_U, EXPECTED_VALUE,
};
pub use fault::{
    Fault, FaultReason, fault_of, text_expected, text_fault, text_fault_with_exponents,
};
