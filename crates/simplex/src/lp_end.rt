// How a linear program ends.
use tableau::{Exchange, Op};

/// How a linear program ends. A trail holds the good exchanges from the start; points have a numerator for each column, and
/// rays and multipliers a number for each row. The value of scale and multipliers bounds the costs times the scale. Where there is
/// no optimum, `rough` says about what each column is, in parts of 1,024: a hint of which nothing is claimed. It has no number
/// where the program itself is out of range.
#[derive(Debug, Drop)]
pub enum LpEnd {
    /// The point over `den` has the least cost: its cost times `scale` is the value of the multipliers times `den`.
    Best {
        trail: Vec<Exchange>,
        den: i128,
        point: Vec<i128>,
        scale: i128,
        mults: Vec<i128>,
    },
    /// No point meets the rows in the bounds: the rows by the ray add up to more than the columns can give.
    Empty {
        trail: Vec<Exchange>,
        ray: Vec<i128>,
        scale: i128,
        mults: Vec<i128>,
    },
    /// The budget of exchanges is spent, and a basic value is still outside a bound.
    Pivots {
        trail: Vec<Exchange>,
        scale: i128,
        mults: Vec<i128>,
        rough: Vec<i128>,
    },
    /// The operation has an exact value out of range.
    Wide {
        trail: Vec<Exchange>,
        op: Op,
        scale: i128,
        mults: Vec<i128>,
        rough: Vec<i128>,
    },
}

/// Which of two ranges of numbers an end is told in.
#[derive(Debug, Drop)]
pub enum Used {
    /// The first one.
    First,
    /// The second one, since after the trail the operation has an exact value out of the first range.
    Second { trail: Vec<Exchange>, op: Op },
}
