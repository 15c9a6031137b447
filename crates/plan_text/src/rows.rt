use road_types::Listed;

/// The amounts of one stage.
#[derive(Drop)]
pub(crate) struct Stage {
    pub(crate) cut: Listed<i128>,
    pub(crate) fill: Listed<i128>,
    pub(crate) right: Listed<i128>,
    pub(crate) left: Listed<i128>,
    pub(crate) roads: Listed<i128>,
}

/// The rows of the five tables that were read so far, each by stage.
#[derive(Drop)]
pub(crate) struct Rows {
    pub(crate) cut: Vec<Listed<i128>>,
    pub(crate) fill: Vec<Listed<i128>>,
    pub(crate) right: Vec<Listed<i128>>,
    pub(crate) left: Vec<Listed<i128>>,
    pub(crate) roads: Vec<Listed<i128>>,
}

/// The five tables of amounts of a plan, each by stage.
#[derive(Drop)]
pub(crate) struct Tables {
    pub(crate) cut: Listed<Listed<i128>>,
    pub(crate) fill: Listed<Listed<i128>>,
    pub(crate) right: Listed<Listed<i128>>,
    pub(crate) left: Listed<Listed<i128>>,
    pub(crate) roads: Listed<Listed<i128>>,
}
