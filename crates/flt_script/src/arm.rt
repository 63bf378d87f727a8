ghost use Rattle.std.specs.Prelude.{◌≡◌, IfSome, IsTrue};
ghost use Rattle.flt_script.specs.Behind.{arm_of};
ghost use Rattle.flt_step.specs.Words.{pattern_text};
ghost use Rattle.flt_script.specs.Pattern.{pattern_spelled};
ghost use Rattle.flt_step.specs.Step.{is_arm_in};

use flt_flash::{Arm, Pattern};
use flt_step::pattern_word;

/// A fault to be armed, with its numbers as they are written.
#[derive(Clone, Copy)]
pub(crate) enum ArmLine {
    Cut { after: u64, pattern: Pattern },
    Fault { after: u64, pattern: Pattern },
    Mute { sector: u64, page: u64, times: u64 },
}

/// The greatest count of operations or reads.
const COUNT: u64 = 65_535;

/// The number of the last sector.
const LAST_SECTOR: u64 = 1;

/// The number of the last page of the largest sector.
const LAST_PAGE: u64 = 1023;

impl ArmLine {
    /// The fault to be armed, or nothing where a number is out of its range.
    #[tactic(auto, unfolding(crate::specs::Behind::arm_of))]
    pub(crate) fn arm(self) -> Option<Arm>
        ensures value { result ≡ arm_of self }
        ensures in_range { IfSome result (λ arm. IsTrue (is_arm_in arm)) }
    {
        match self {
            ArmLine::Cut { after, pattern } if 1 <= after && after <= COUNT => Some(Arm::Cut {
                after: after as u32,
                pattern,
            }),
            ArmLine::Fault { after, pattern } if 1 <= after && after <= COUNT => Some(Arm::Fault {
                after: after as u32,
                pattern,
            }),
            ArmLine::Mute {
                sector,
                page,
                times,
            } if sector <= LAST_SECTOR && page <= LAST_PAGE && 1 <= times && times <= COUNT => {
                Some(Arm::Mute {
                    sector: sector as u8,
                    page: page as u16,
                    times: times as u16,
                })
            }
            _ => None,
        }
    }
}

const PATTERNS: [Pattern; 4] = [Pattern::Nothing, Pattern::All, Pattern::Tail, Pattern::Odd];

/// The pattern that a word spells.
#[tactic(auto, unfolding(crate::specs::Pattern::pattern_spelled))]
pub(crate) fn read_pattern(word: &[u8]) -> Option<Pattern>
    ensures { result ≡ pattern_spelled word.now }
{
    PATTERNS
        .iter()
        .copied()
        .find(|pattern| word == pattern_word(*pattern).as_bytes())
}
