// The windowed transform of one subband: 36 places from 18 samples.

#![tactic(auto)]

ghost use Rattle.std.specs.Prelude.{◌≡◌, ◌+◌, ◌<◌, ◌≤◌, length};
ghost use Rattle.std.specs.Float.Ieee.{add, mul};
ghost use Rattle.std.specs.Float.{binary32};
ghost use Rattle.laws.specs.Lists.{at, tab};
ghost use Rattle.laws.specs.Sum.{sum_to};
ghost use Rattle.imdct.specs.Halves.{half_place, unfolded};
ghost use Rattle.imdct.specs.Imdct.{long_term, long_place, short_term, short_window_place, overwritten_place, added_place, short_place, window_number, place_of};

use laws::add_scaled;
use side_info::Edition;
use tables::Transform;

// The kinds of window, in the order of their table.
#[derive(Clone, Copy, Debug, PartialEq, Eq)]
pub enum Window {
    Long,
    Start,
    Short,
    End,
}

impl Window {
    // Its place in the table.
    fn index(self) -> usize
        ensures { result ≡ window_number self }
    {
        match self {
            Window::Long => 0,
            Window::Start => 1,
            Window::Short => 2,
            Window::End => 3,
        }
    }
}

// The long transform's sums at the places that the others mirror: 0 to 8, and then 18 to 26.
fn long_sums(tables: &Transform, s: &[f32; 18]) -> [f32; 18]
    ensures { result ≡ tab 18 (λ p. sum_to 18 (long_term s.now (half_place p))) }
{
    let mut sums = [0.0f32; 18];
    for m in 0..18 {
        let row = tables.cos36[m];
        add_scaled(s[m], &row[0..9], &mut sums[0..9]);
        add_scaled(s[m], &row[18..27], &mut sums[9..18]);
    }
    sums
}

// All 36 sums: place 17 - p is 0.0 - place p, and place 53 - p is place p.
fn long_unfold(sums: &[f32; 18]) -> [f32; 36]
    ensures { result ≡ tab 36 (unfolded sums.now) }
{
    let mut all = [0.0f32; 36];
    for p in 0..9 {
        all[p] = sums[p];
        all[9 + p] = 0.0 - sums[8 - p];
        all[18 + p] = sums[9 + p];
        all[27 + p] = sums[17 - p];
    }
    all
}

// Sums times the entries of a window that stand at their places.
fn windowed<const N: usize>(sums: &[f32; N], window: &[f32]) -> [f32; N]
    requires { length window.now ≡ N }
    ensures { result ≡ tab N (λ p. mul binary32 (at sums.now p) (at window.now p)) }
{
    let mut places = [0.0f32; N];
    for p in 0..N {
        places[p] = sums[p] * window[p];
    }
    places
}

// The 36 places of a long kind.
fn long_places(tables: &Transform, window: &[f32; 36], s: &[f32; 18]) -> [f32; 36]
    ensures { result ≡ tab 36 (long_place window.now s.now) }
{
    let sums = long_sums(tables, s);
    windowed(&long_unfold(&sums), window)
}

// The sums of short window `i` at four places from place `from` on. Each row is copied: with lent ones hybrid takes an
// eighth more instructions at a short kind.
fn short_sums(tables: &Transform, s: &[f32; 18], i: usize, from: usize) -> [f32; 4]
    requires { (i < 3) × (from ≤ 8) }
    ensures { result ≡ tab 4 (λ p. sum_to 6 (short_term s.now i (from + p))) }
{
    let mut sums = [0.0f32; 4];
    for m in 0..6 {
        let row = tables.cos12[m];
        add_scaled(s[i + 3 * m], &row[from..from + 4], &mut sums);
    }
    sums
}

// The first half of short window `i`: places 4 and 5 are 0.0 - places 1 and 0.
fn first_half(tables: &Transform, window: &[f32; 36], s: &[f32; 18], i: usize) -> [f32; 6]
    requires { i < 3 }
    ensures { result ≡ tab 6 (short_window_place window.now s.now i) }
{
    let [a, b, c, d] = short_sums(tables, s, i, 0);
    windowed(&[a, b, c, d, 0.0 - b, 0.0 - a], &window[0..6])
}

// The second half of short window `i`: places 10 and 11 are places 7 and 6.
fn second_half(tables: &Transform, window: &[f32; 36], s: &[f32; 18], i: usize) -> [f32; 6]
    requires { i < 3 }
    ensures { result ≡ tab 6 (λ p. short_window_place window.now s.now i (6 + p)) }
{
    let [a, b, c, d] = short_sums(tables, s, i, 6);
    windowed(&[a, b, c, d, b, a], &window[6..12])
}

// The 36 places of kind 2 in edition 1. Of windows 0 and 1 only the first half is made: the next window overwrites the second.
fn overwritten_places(tables: &Transform, window: &[f32; 36], s: &[f32; 18]) -> [f32; 36]
    ensures { result ≡ tab 36 (overwritten_place window.now s.now) }
{
    let mut places = [0.0f32; 36];
    for i in 0..3 {
        places[6 * i + 6..6 * i + 12].copy_from_slice(&first_half(tables, window, s, i));
    }
    places[24..30].copy_from_slice(&second_half(tables, window, s, 2));
    places
}

// The 12 places of short window `i`.
fn window_places(tables: &Transform, window: &[f32; 36], s: &[f32; 18], i: usize) -> [f32; 12]
    requires { i < 3 }
    ensures { result ≡ tab 12 (short_window_place window.now s.now i) }
{
    let mut places = [0.0f32; 12];
    places[0..6].copy_from_slice(&first_half(tables, window, s, i));
    places[6..12].copy_from_slice(&second_half(tables, window, s, i));
    places
}

// Adds a window's places to those that it lands on. The place counts in both slices.
fn add_window(values: &[f32; 12], out: &mut [f32])
    requires { length out.old ≡ 12 }
    ensures { out.new ≡ tab 12 (λ p. add binary32 (at out.old p) (at values.now p)) }
{
    for p in 0..12 {
        out[p] += values[p];
    }
}

// The 36 places of kind 2 in edition 2: each from 0.0, which makes +0.0 of a lone -0.0.
fn added_places(tables: &Transform, window: &[f32; 36], s: &[f32; 18]) -> [f32; 36]
    ensures { result ≡ tab 36 (added_place window.now s.now) }
{
    let mut places = [0.0f32; 36];
    for i in 0..3 {
        let values = window_places(tables, window, s, i);
        add_window(&values, &mut places[6 * i + 6..6 * i + 18]);
    }
    places
}

// The 36 places of kind 2.
fn short_places(
    tables: &Transform,
    edition: Edition,
    window: &[f32; 36],
    s: &[f32; 18],
) -> [f32; 36]
    ensures { result ≡ tab 36 (short_place edition window.now s.now) }
{
    match edition {
        Edition::First => overwritten_places(tables, window, s),
        Edition::Second => added_places(tables, window, s),
    }
}

// The 36 places of window kind `kind`.
pub fn imdct_win(tables: &Transform, edition: Edition, kind: Window, s: &[f32; 18]) -> [f32; 36]
    ensures { result ≡ tab 36 (place_of edition (window_number kind) s.now) }
{
    let window = &tables.windows[kind.index()];
    match kind {
        Window::Short => short_places(tables, edition, window, s),
        Window::Long | Window::Start | Window::End => long_places(tables, window, s),
    }
}
