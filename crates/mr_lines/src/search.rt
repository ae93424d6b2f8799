ghost use Rattle.std.specs.Prelude.{◌≡◌, ◌≤◌, length, slice_range};
ghost use Rattle.mr_items.specs.StringMatch.{stands_in};
ghost use Rattle.mr_lines.specs.Searches.{IsNext};

use bstr::Finder;

/// A search for one pattern over a piece: the next place at which it stands, or one past the piece's end.
#[derive(Drop)]
pub(crate) struct Search<'a> {
    pub finder: Finder<'a>,
    pub next: usize,
}

/// The first place from `from` on at which the pattern stands before `stop`, or the one past `stop`.
pub(crate) fn next_place(finder: &Finder<'_>, text: &[u8], from: usize, stop: usize) -> usize
    requires order { from ≤ stop }
    requires inside { stop ≤ length text.now }
    ensures later { from ≤ result }
    ensures next { IsNext text.now finder.now stop from result }
{
    match finder.find(&text[from..stop]) {
        Some(place) => from + place,
        None => stop + 1,
    }
}

/// Looks for the pattern from a place on, where its last place lies before that.
fn catch_up(search: &mut Search<'_>, text: &[u8], from: usize, stop: usize)
    requires order { from ≤ stop }
    requires inside { stop ≤ length text.now }
    requires next { IsNext text.now search.old.finder stop from search.old.next }
    ensures finder { search.new.finder ≡ search.old.finder }
    ensures later { from ≤ search.new.next }
    ensures next { IsNext text.now search.new.finder stop from search.new.next }
{
    if search.next < from {
        search.next = next_place(&search.finder, text, from, stop);
    }
}

/// Whether the pattern stands in the line from one place up to another.
pub(crate) fn stands(
    search: &mut Search<'_>,
    text: &[u8],
    from: usize,
    to: usize,
    stop: usize,
) -> bool
    requires order { from ≤ to }
    requires within { to ≤ stop }
    requires inside { stop ≤ length text.now }
    requires next { IsNext text.now search.old.finder stop from search.old.next }
    ensures same { result ≡ stands_in (slice_range text.now from to) search.old.finder }
    ensures finder { search.new.finder ≡ search.old.finder }
    ensures next { IsNext text.now search.new.finder stop from search.new.next }
{
    catch_up(search, text, from, stop);
    search.next <= to && search.finder.needle().len() <= to - search.next
}
