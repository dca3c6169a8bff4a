//! The registers of a kernel call (`docs/KERNEL.md`, "Kernel calls").

/// Has the call's number.
pub const CALL_NUMBER: u8 = 2;

/// The first to the fifth argument.
pub const FIRST_ARGUMENT: u8 = 4;

pub const SECOND_ARGUMENT: u8 = 5;

pub const THIRD_ARGUMENT: u8 = 6;

pub const FOURTH_ARGUMENT: u8 = 7;

pub const FIFTH_ARGUMENT: u8 = 8;

/// Gets the answer's code.
pub const CODE_REGISTER: u8 = 2;

/// Gets the answer's value.
pub const VALUE_REGISTER: u8 = 3;
