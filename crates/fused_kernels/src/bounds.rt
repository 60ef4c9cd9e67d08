//! The greatest value that a frame's reference and width allow.
ghost use Rattle.std.specs.Prelude.{◌≡◌, ◌-◌, ◌^◌, ◌≤◌, int_lt, pos, ◌-ℤ◌, ◌≤ℤ◌};
ghost use Rattle.frame_delta.specs.Frame.{IsFrameForm};
ghost use Rattle.native_lanes.specs.Frames.{top_value};

use frame_delta::For;

/// Two to the power of a number up to 64.
#[inline(always)]
fn power_of_two(exponent: usize) -> i128
    requires { exponent ≤ 64 }
    ensures value { result ≡ pos (2 ^ exponent) }
    ensures most { result ≤ℤ pos (2 ^ 64) }
{
    (1u128 << exponent) as i128
}

/// The reference of a frame plus the greatest number of its width.
fn top_of(form: &For) -> i128
    ensures value { result ≡ top_value form.now }
    ensures least { (pos 0 -ℤ pos (2 ^ 63)) ≤ℤ result }
    ensures most { result ≤ℤ pos (2 ^ 65) }
{
    i128::from(form.reference()) + power_of_two(form.width()) - 1
}

/// Whether no value of a frame can wrap: the reference plus the greatest number of the width is in the lane width's range.
pub(crate) fn is_plain(form: &For) -> bool
    ensures form { IsFrameForm form.now }
    ensures plain { result ≡ int_lt (top_value form.now) (pos (2 ^ (form.now.lane_width - 1))) }
{
    top_of(form) < power_of_two(form.lane_width() - 1)
}
