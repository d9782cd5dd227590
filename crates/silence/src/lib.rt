// Subbands that hold nothing but zeros: what comes after the last used one need not be worked out.

#![tactic(auto)]

ghost use Rattle.std.specs.Prelude.{◌≡◌, length};
ghost use Rattle.silence.specs.Silence.{all_zero, used_subbands};

// Whether each element is a zero, of either sign. To the end whatever it finds: the machine then takes several at once.
fn all_zero(xs: &[f32]) -> bool
    ensures { result ≡ all_zero xs.now }
{
    let mut bad: u32 = 0;
    for x in xs {
        if *x != 0.0 {
            bad = 1;
        }
    }
    bad == 0
}

// How many subbands of 18 are used: after them come zeros alone.
pub fn used_subbands(samples: &[f32]) -> usize
    requires { length samples.now ≡ 576 }
    ensures { result ≡ used_subbands samples.now }
{
    for sb in (0..32usize).rev() {
        if !all_zero(&samples[18 * sb..18 * sb + 18]) {
            return sb + 1;
        }
    }
    0
}
