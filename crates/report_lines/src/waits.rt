use crate::lines::WaitsPart;
use report_figures::{TickList, spread_of, total_of};
use report_text::Text;
use run_history::{SiteWaits, WaitLists};
use source_places::Places;
use std::alloc::AllocError;

/// Appends the rows of waits by the place at which threads waited. It leaves the waits of each place sorted by length.
pub fn put_waits(text: &mut Text, places: &Places, lists: &mut WaitLists) {
    for (site, waits) in &mut lists.sites {
        if put_site_waits(text, places, *site, waits).is_err() {
            text.lack()
        }
    }
}

/// Appends the row of a site: its waits, the thread with the longest one, and the end of that.
fn put_site_waits(
    text: &mut Text,
    places: &Places,
    site: u32,
    waits: &mut SiteWaits,
) -> Result<(), AllocError> {
    text.words("  ");
    places.put_site(text, site);
    text.words(": ");
    put_part(text, &mut waits.ticks)?;
    let longest = waits.longest;
    text.form(
        " (thread $, until $)\n",
        &[u64::from(longest.thread), longest.until],
    );
    Ok(())
}

/// Appends the number of waits and their lengths, from these ticks, or nothing if there are none.
pub(crate) fn put_part(text: &mut Text, ticks: &mut TickList) -> Result<(), AllocError> {
    let total = total_of(ticks).unwrap_or(u128::MAX);
    if let Some(spread) = spread_of(ticks)? {
        text.line(&WaitsPart {
            count: spread.count,
            total,
            median: spread.median,
            ninety_ninth: spread.ninety_ninth,
            greatest: spread.greatest,
        })
    }
    Ok(())
}
