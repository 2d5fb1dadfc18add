// The marks of a thread's row: a mark that fills its places is as high as the row. In a mark with several shares,
// running is at the bottom, waiting above it, and the rest is white.
use crate::colors::{COLORS, color_of, name_of};
use crate::rows::Mark;
use report_figures::Window;
use report_text::Text;

/// A row: its marks, over places of several columns of a window, the sites at which threads wait, increasing, and the
/// height of the row in pixels.
#[derive(Clone, Copy)]
pub(crate) struct Lane<'a> {
    pub(crate) window: Window,
    pub(crate) wide: u32,
    pub(crate) marks: &'a [Mark],
    pub(crate) sites: &'a [u32],
    pub(crate) tall: u64,
}

/// The heights in pixels of what a thread does at a mark.
#[derive(Clone, Copy)]
struct Shares {
    ran: u64,
    waited: u64,
}

impl<'a> Lane<'a> {
    /// Returns the shares of a mark, in proportion to all ticks of its places; a thread that runs there has at least
    /// one pixel.
    fn shares_of(&self, mark: Mark) -> Shares {
        let begins = self.window.clock(mark.from.saturating_mul(self.wide));
        let ends = self
            .window
            .clock(mark.to.saturating_add(1).saturating_mul(self.wide));
        let done = mark.ran.saturating_add(mark.waited);
        let ticks = ends.saturating_sub(begins).max(done);
        let ran = part_of(mark.ran, ticks, self.tall).max(mark.ran.min(1));
        let rest = self.tall.saturating_sub(ran);
        let waited = if done >= ticks {
            rest
        } else {
            part_of(mark.waited, ticks, self.tall).min(rest)
        };
        Shares { ran, waited }
    }

    /// Returns the number of the colour of the waits at a mark.
    fn color_in(&self, mark: Mark) -> usize {
        let site = mark.site.unwrap_or(0);
        match self.sites.binary_search(&site) {
            Ok(place) => color_of(place),
            Err(place) => color_of(place),
        }
    }

    /// Returns the piece of a mark that has a colour: its height, and the height below it.
    fn piece_of(&self, mark: Mark, color: usize) -> Option<(u64, u64)> {
        let shares = self.shares_of(mark);
        if color == 0 && shares.ran > 0 {
            Some((shares.ran, 0))
        } else if color == self.color_in(mark) && shares.waited > 0 {
            Some((shares.waited, shares.ran))
        } else {
            None
        }
    }
}

/// Returns the number of pixels of a height for a part of a whole.
fn part_of(part: u64, whole: u64, tall: u64) -> u64 {
    let pixels = u128::from(part) * u128::from(tall) / u128::from(whole.max(1));
    u64::try_from(pixels).unwrap_or(tall)
}

/// Appends the marks of a row, one path of pieces for each colour, and the row's end.
pub(crate) fn put_lane(text: &mut Text, lane: Lane) {
    for color in 0..COLORS {
        put_path(text, lane, color);
    }
    text.words("</g>\n")
}

/// A piece of a path: its start, its width, its height, and its width back.
const PIECE: &str = "M$ $h$v$h-$z";

/// Appends the path of the marks of a row that have that colour, or nothing if there are none.
fn put_path(text: &mut Text, lane: Lane, color: usize) {
    let mut is_begun = false;
    for mark in lane.marks {
        if let Some((high, below)) = lane.piece_of(*mark, color) {
            if !is_begun {
                text.words("<path fill=\"");
                text.words(name_of(color));
                text.words("\" d=\"");
                is_begun = true;
            }
            let wide = u64::from(mark.to.saturating_sub(mark.from)).saturating_add(1);
            let y = lane.tall.saturating_sub(high.saturating_add(below));
            text.form(PIECE, &[u64::from(mark.from), y, wide, high, wide])
        }
    }
    if is_begun {
        text.words("\"/>")
    }
}
