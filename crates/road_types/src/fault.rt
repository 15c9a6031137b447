// The faults of a road file.
use std::fmt;

/// A fault of a road file by its number.
#[derive(Clone, Copy, Debug, PartialEq, Eq)]
pub enum Fault {
    F1,
    F2,
    F3,
    F4,
    F5,
    F6,
    F7,
    F8,
    F9,
    F10,
    F11,
    F12,
    F13,
    F14,
    F15,
    F16,
    F17,
    F18,
}
