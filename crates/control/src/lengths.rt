// How long acquisition and pauses last.
ghost use Rattle.std.specs.Prelude.{◌≡◌};
ghost use Rattle.control.specs.Lengths as Lengths;

use time::{Duration, SCAN};

// From the start of acquisition to its first scan: the scan is part of the stated length.
pub fn acquisition_delay(ready: Duration) -> Duration
    ensures { result ≡ Lengths.acquisition_delay ready }
{
    ready.saturating_sub(Duration(0, SCAN))
}

// The cycles from a wake to valid samples, by the filter's window.
#[tactic(auto, unfolding(crate::specs::Lengths::acquisition_cycles))]
pub fn acquisition_cycles(window: u8) -> u16
    ensures { result ≡ Lengths.acquisition_cycles window }
{
    if window == 1 {
        1
    } else {
        2 * u16::from(window)
    }
}

// The pauses that wake_up_pause chooses from, in milliseconds. Functions and no constants, here and below: their contracts name the paper's lists.
pub fn pauses() -> [u16; 4]
    ensures { result ≡ Lengths.pauses }
{
    [20, 80, 320, 2560]
}

// How often in a row any_motion_dur asks for motion.
pub fn needs() -> [u8; 4]
    ensures { result ≡ Lengths.needs }
{
    [1, 3, 5, 7]
}

// The pause that a code of wake_up_pause chooses.
pub fn pause_length(code: u8, pauses: [u16; 4]) -> Duration
    ensures { result ≡ Lengths.pause_length code pauses }
{
    Duration::from_millis(u64::from(pauses[usize::from(code % 4)]))
}
