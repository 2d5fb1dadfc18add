/// The number of colours of a row: one for runs, the others for waits.
pub(crate) const COLORS: usize = 8;

/// Runs are black. The colours of waits are distinct for every kind of colour vision: those of Okabe and Ito's palette
/// without its black.
const NAMES: [&str; COLORS] = [
    "#000000", "#e69f00", "#56b4e9", "#009e73", "#f0e442", "#0072b2", "#d55e00", "#cc79a7",
];

/// Returns the number of the colour of waits at the place of that number among the places at which threads wait. There
/// are seven colours, which repeat.
pub(crate) fn color_of(place: usize) -> usize {
    place % (COLORS - 1) + 1
}

/// Returns the name of a colour.
pub(crate) fn name_of(color: usize) -> &'static str {
    NAMES[color % COLORS]
}
