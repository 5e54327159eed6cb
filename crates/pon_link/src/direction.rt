/// The two directions of a link.
#[derive(Clone, Copy, Debug, PartialEq, Eq)]
pub enum Direction {
    /// From the ONUs: the content of their bursts.
    Up,
    /// To the ONUs: the bandwidth maps.
    Down,
}
