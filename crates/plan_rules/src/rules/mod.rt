// The rules by what they speak of.
pub mod blocks;
pub mod caps;
pub mod flows;
pub mod limits;
pub mod volumes;
