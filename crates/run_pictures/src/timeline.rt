use crate::colors::{color_of, name_of};
use crate::head::HEAD;
use crate::lanes::{Lane, put_lane};
use crate::rows::Rows;
use report_figures::{COLUMNS, Window};
use report_text::Text;

/// The width to the left of the rows, for the threads' numbers.
const LEFT: u64 = 80;

/// The width of the picture.
const WIDTH: u64 = LEFT + COLUMNS as u64 + 40;

/// The height of a row, with up to 100 rows and with more.
const HIGH: u64 = 16;

const LOW: u64 = 3;

/// The maximum number of parts into which lines divide the time.
const PARTS: u64 = 8;

/// Appends the timeline as SVG: a row for each thread, its runs in black and its waits in the colour of their place, a
/// legend of the places above, and lines of time with their clocks. `sites` are the sites at which threads wait,
/// increasing, and `names` their places, one for each. With more than 100 threads rows are lower, and only every
/// fiftieth has its number; each row shows its thread as a tooltip.
pub fn put_timeline(text: &mut Text, rows: &Rows, sites: &[u32], names: &[String]) {
    let count = rows.rows.len() as u64;
    let high = if count > 100 { LOW } else { HIGH };
    let top = (names.len() as u64).saturating_mul(16).saturating_add(40);
    let bottom = count.saturating_mul(high).saturating_add(top);
    let height = bottom.saturating_add(20);
    text.form(HEAD, &[WIDTH, height, WIDTH, height]);
    put_legend(text, names);
    put_clocks(text, rows.window, top, bottom);
    put_rows(text, rows, sites, top, high)
}

/// The line of the legend for runs.
const RUNS: &str =
    "<rect x=\"4\" y=\"4\" width=\"10\" height=\"10\"/><text x=\"20\" y=\"13\">runs; if a place has more than one mark, each is as high as its share of the time there, and white is the rest</text>\n";

/// Appends the legend: a line for each place, and one for runs.
fn put_legend(text: &mut Text, names: &[String]) {
    text.words(RUNS);
    let mut place: usize = 0;
    for name in names {
        let y = (place as u64).saturating_mul(16).saturating_add(20);
        text.form(
            "<rect x=\"4\" y=\"$\" width=\"10\" height=\"10\" fill=\"",
            &[y],
        );
        text.words(name_of(color_of(place)));
        text.form(
            "\"/><text x=\"20\" y=\"$\">waits at ",
            &[y.saturating_add(9)],
        );
        text.escaped(name.as_str());
        text.words("</text>\n");
        place = place.saturating_add(1);
    }
}

/// The caption of the numbers above the lines of time.
const CLOCK: &str = "<text x=\"4\" y=\"$\">clock</text>\n";

/// A line of time from one height to another, with its clock above.
const LINE: &str =
    "<path d=\"M$ $V$\" stroke=\"#cccccc\"/><text x=\"$\" y=\"$\" text-anchor=\"middle\">$</text>\n";

/// Appends lines of time over the rows between these heights, each with its clock above, at the multiples of a round
/// number of ticks.
fn put_clocks(text: &mut Text, window: Window, top: u64, bottom: u64) {
    let above = top.saturating_sub(4);
    let below = bottom.saturating_add(6);
    text.form(CLOCK, &[above]);
    let step = round_step(window.ticks());
    let first = (window.from / step.max(1)).saturating_mul(step);
    for part in 0..PARTS + 2 {
        let clock = first.saturating_add(step.saturating_mul(part));
        if window.from <= clock && clock <= window.to {
            let x = LEFT + u64::from(window.column(clock));
            text.form(LINE, &[x, top, below, x, above, clock]);
        }
    }
}

/// Returns a round number of ticks, 1, 2 or 5 times a power of ten, that divides these ticks into at most `PARTS`
/// parts.
fn round_step(ticks: u64) -> u64 {
    let power = power_within(ticks / PARTS);
    if ticks <= power.saturating_mul(PARTS) {
        power
    } else if ticks <= power.saturating_mul(2 * PARTS) {
        power.saturating_mul(2)
    } else if ticks <= power.saturating_mul(5 * PARTS) {
        power.saturating_mul(5)
    } else {
        power.saturating_mul(10)
    }
}

/// Returns the greatest power of ten that is at most a number, or 1 if there is none.
fn power_within(number: u64) -> u64 {
    let mut power: u64 = 1;
    for _ in 0..19 {
        if power.saturating_mul(10) > number {
            return power;
        }
        power = power.saturating_mul(10);
    }
    power
}

/// The head of the rows.
const ROWS: &str = "<g stroke=\"none\">\n";

/// The head of a thread's row, whose places have this number of columns, and the same with the thread's number to its
/// left.
const ROW: &str = "<g transform=\"translate($ $) scale($ 1)\"><title>thread $</title>";

const NUMBERED_ROW: &str =
    "<text x=\"4\" y=\"$\" fill=\"#000000\">$</text>\n<g transform=\"translate($ $) scale($ 1)\"><title>thread $</title>";

/// Appends the rows of that height, from that height on downwards, and the picture's end.
fn put_rows(text: &mut Text, rows: &Rows, sites: &[u32], top: u64, high: u64) {
    let tall = high.saturating_sub(1);
    text.words(ROWS);
    let mut shown: u64 = 0;
    for (number, marks) in &rows.rows {
        let y = shown.saturating_mul(high).saturating_add(top);
        put_row_head(text, *number as u64, shown, y, high, rows.wide as u64);
        let lane = Lane {
            window: rows.window,
            wide: rows.wide,
            marks: marks.as_slice(),
            sites,
            tall,
        };
        put_lane(text, lane);
        shown = shown.saturating_add(1);
    }
    text.words("</g>\n</svg>\n")
}

/// Appends the head of the row of that number, with the number of its thread to its left if that is shown.
fn put_row_head(text: &mut Text, thread: u64, row: u64, y: u64, high: u64, wide: u64) {
    if high == HIGH || row % 50 == 0 {
        let base = y.saturating_add(if high == HIGH { 11 } else { 6 });
        text.form(NUMBERED_ROW, &[base, thread, LEFT, y, wide, thread])
    } else {
        text.form(ROW, &[LEFT, y, wide, thread])
    }
}
