/// A curve from the use and the cap of a resource to a pressure from 0 to 1000.
#[derive(Clone, Copy)]
pub enum Curve {
    /// The use in thousandths of the cap, rounded down.
    Linear,
    /// 0 up to a part of the cap, and from there a straight line to 1000 at the cap, rounded down.
    Knee {
        /// Where the line begins, in thousandths of the cap: at most 999. With 0 the curve is `Linear`.
        knee: u32,
    },
    /// 125 for each of eight thresholds that the use has reached.
    Steps {
        /// The thresholds in thousandths of the cap, strictly increasing, from at least 1 to at most
        /// 1000.
        at: [u32; 8],
    },
}
