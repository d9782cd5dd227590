// What replaying stored answers counts: the places where a stage's floats are not as the answer has them.

#![tactic(auto)]

ghost use Rattle.std.specs.Prelude.{◌≡◌, ◌&&◌, ◌+◌, ◌*◌, ◌≤◌, eqb, length};
ghost use Rattle.laws.specs.Finite.{finite};
ghost use Rattle.replay.specs.Differing.{same, agrees, differences};
ghost use Rattle.replay.specs.Near.{size, sign_of, near};

// The same bits. Any NaN equals any other.
fn same(ours: f32, theirs: f32) -> bool
    ensures { result ≡ same ours theirs }
{
    laws::bits_of(ours) == laws::bits_of(theirs)
}

// The size of a number. (`abs` would make 0.0 of -0.0: specs/Near.antt leaves it as it is.)
fn size(x: f64) -> f64
    ensures { result ≡ size x }
{
    if x < 0.0 { -x } else { x }
}

// Whether both are finite and of one sign.
fn of_one_sign(ours: f32, theirs: f32) -> bool
    ensures { result ≡ (finite ours && (finite theirs && eqb (sign_of ours) (sign_of theirs))) }
{
    laws::is_finite(ours)
        && laws::is_finite(theirs)
        && laws::bits_of(ours) / 2147483648 == laws::bits_of(theirs) / 2147483648
}

// Within a relative 1/1,048,576 of the Rust's number, and of its sign. f64 decides this exactly: specs/Near.antt says why.
fn near(ours: f32, theirs: f32) -> bool
    ensures { result ≡ near ours theirs }
{
    of_one_sign(ours, theirs)
        && size(ours as f64 - theirs as f64) * 1048576.0 <= size(theirs as f64)
}

// Near is enough where the comparison is loose.
fn agrees(loose: bool, ours: f32, theirs: f32) -> bool
    ensures { result ≡ agrees loose ours theirs }
{
    if loose {
        near(ours, theirs)
    } else {
        same(ours, theirs)
    }
}

// How many of the floats do not agree with those that stand in the bytes from a place on.
pub fn differing(loose: bool, xs: &[f32], s: &[u8], from: usize) -> u64
    requires { from + 4 * length xs.now ≤ length s.now }
    ensures value { result ≡ differences loose xs.now s.now from (length xs.now) }
    ensures upper_bound { result ≤ length xs.now }
{
    let mut n: u64 = 0;
    for (i, x) in xs.iter().enumerate() {
        if !agrees(loose, *x, little_endian::float_at(s, from + 4 * i)) {
            n += 1;
        }
    }
    n
}
