ghost use Rattle.std.specs.Prelude.{◌≡◌, ◌==◌, option_map};
ghost use Rattle.flt_script.specs.Text.{seen};
ghost use Rattle.flt_script.specs.Numeral.{number, signed, up_to};
ghost use Rattle.flt_script.specs.Event.{only, has_pair, number_or, jump_of, threshold_words, thresholds_of, times_of, counter_of, debounce_of, numbers_of, spelled_dtc, event_line_of, jump_held};

use crate::numeral::{
    held_byte, held_negative, held_positive, held_word, read_hexadecimal, read_number, read_signed,
};
use crate::pair::{Key, any_twice, starts_with_key, values_of};
use arrayvec::ArrayVec;
use flt_config::{Debounce, EventCfg};

/// The numbers of a counter that debounces, as they are written.
#[derive(Clone, Copy)]
pub(crate) struct Thresholds {
    pub fail: u64,
    pub pass: u64,
    pub up: u64,
    pub down: u64,
}

/// How an event is debounced, with its numbers as they are written.
#[derive(Clone, Copy)]
pub(crate) enum DebounceLine {
    Counter {
        thresholds: Thresholds,
        jump_up: Option<i64>,
        jump_down: Option<i64>,
    },
    Time {
        fail: u64,
        pass: u64,
    },
}

/// The plain numbers of an event, as they are written.
#[derive(Clone, Copy)]
pub(crate) struct Numbers {
    pub priority: u64,
    pub cycle: u64,
    pub confirm: u64,
    pub heal: u64,
    pub age: u64,
    pub lamp: u64,
    pub needs: u64,
}

/// What an event line says, with its numbers as they are written.
#[derive(Clone, Copy)]
pub(crate) struct EventLine {
    pub number: u64,
    pub dtc: u32,
    pub numbers: Numbers,
    pub debounce: DebounceLine,
}

fn pair_number(words: &[&[u8]]) -> Option<u64>
    ensures { result ≡ only number (seen words.now) }
{
    match words {
        [word] => read_number(word),
        _ => None,
    }
}

fn pair_signed(words: &[&[u8]]) -> Option<i64>
    ensures { result ≡ only signed (seen words.now) }
{
    match words {
        [word] => read_signed(word),
        _ => None,
    }
}

fn stands(key: Key, pairs: &[&[u8]]) -> bool
    ensures { result ≡ has_pair key (seen pairs.now) }
{
    values_of(key, pairs).is_some()
}

#[tactic(auto, unfolding(crate::specs::Event::number_or))]
fn number_or(default: u64, key: Key, pairs: &[&[u8]]) -> Option<u64>
    ensures { result ≡ number_or default key (seen pairs.now) }
{
    match values_of(key, pairs) {
        None => Some(default),
        Some(values) => pair_number(values),
    }
}

#[tactic(auto, unfolding(crate::specs::Event::jump_of))]
fn jump_of(key: Key, pairs: &[&[u8]]) -> Option<Option<i64>>
    ensures { result ≡ jump_of key (seen pairs.now) }
{
    match values_of(key, pairs) {
        None => Some(None),
        Some(values) => Some(Some(pair_signed(values)?)),
    }
}

#[tactic(auto, unfolding(crate::specs::Event::threshold_words))]
fn threshold_words(values: &[&[u8]]) -> Option<Thresholds>
    ensures { result ≡ threshold_words (seen values.now) }
{
    match values {
        [fail, pass, up, down] => Some(Thresholds {
            fail: read_number(fail)?,
            pass: read_number(pass)?,
            up: read_number(up)?,
            down: read_number(down)?,
        }),
        _ => None,
    }
}

#[tactic(auto, unfolding(crate::specs::Event::thresholds_of))]
fn thresholds_of(pairs: &[&[u8]]) -> Option<Thresholds>
    ensures { result ≡ thresholds_of (seen pairs.now) }
{
    match values_of(Key::Count, pairs) {
        None => Some(Thresholds {
            fail: 1,
            pass: 1,
            up: 1,
            down: 1,
        }),
        Some(values) => threshold_words(values),
    }
}

#[tactic(auto, unfolding(crate::specs::Event::times_of))]
fn times_of(values: &[&[u8]]) -> Option<DebounceLine>
    ensures { result ≡ times_of (seen values.now) }
{
    match values {
        [fail, pass] => Some(DebounceLine::Time {
            fail: read_number(fail)?,
            pass: read_number(pass)?,
        }),
        _ => None,
    }
}

#[tactic(auto, unfolding(crate::specs::Event::counter_of))]
fn counter_of(pairs: &[&[u8]]) -> Option<DebounceLine>
    ensures { result ≡ counter_of (seen pairs.now) }
{
    Some(DebounceLine::Counter {
        thresholds: thresholds_of(pairs)?,
        jump_up: jump_of(Key::JumpUp, pairs)?,
        jump_down: jump_of(Key::JumpDown, pairs)?,
    })
}

#[tactic(auto, unfolding(crate::specs::Event::debounce_of))]
fn debounce_of(pairs: &[&[u8]]) -> Option<DebounceLine>
    ensures { result ≡ debounce_of (seen pairs.now) }
{
    let Some(values) = values_of(Key::Time, pairs) else {
        return counter_of(pairs);
    };
    if stands(Key::Count, pairs) || stands(Key::JumpUp, pairs) || stands(Key::JumpDown, pairs) {
        return None;
    }
    times_of(values)
}

#[tactic(auto, unfolding(crate::specs::Event::numbers_of))]
fn numbers_of(pairs: &[&[u8]]) -> Option<Numbers>
    ensures { result ≡ numbers_of (seen pairs.now) }
{
    Some(Numbers {
        priority: number_or(1, Key::Priority, pairs)?,
        cycle: number_or(0, Key::Cycle, pairs)?,
        confirm: number_or(1, Key::Confirm, pairs)?,
        heal: number_or(3, Key::Heal, pairs)?,
        age: number_or(40, Key::Age, pairs)?,
        lamp: number_or(0, Key::Lamp, pairs)?,
        needs: number_or(0, Key::Needs, pairs)?,
    })
}

#[tactic(auto, unfolding(crate::specs::Event::spelled_dtc))]
fn dtc_of(pairs: &[&[u8]]) -> Option<u32>
    ensures { result ≡ spelled_dtc (seen pairs.now) }
{
    match values_of(Key::Dtc, pairs)? {
        [word] => Some(read_hexadecimal(6, word)? as u32),
        _ => None,
    }
}

/// What follows the word event.
#[tactic(auto, unfolding(crate::specs::Event::event_line_of))]
pub(crate) fn event_of(words: &[&[u8]]) -> Option<EventLine>
    ensures { result ≡ event_line_of (seen words.now) }
{
    let (number, pairs) = words.split_first()?;
    if !starts_with_key(pairs) || any_twice(pairs) {
        return None;
    }
    Some(EventLine {
        number: read_number(number)?,
        dtc: dtc_of(pairs)?,
        numbers: numbers_of(pairs)?,
        debounce: debounce_of(pairs)?,
    })
}

impl EventLine {
    ghost use Rattle.flt_script.specs.Event.{event_held};

    /// The event that the configuration holds, or nothing where a number is too large for it.
    #[tactic(auto, unfolding(crate::specs::Event::event_held))]
    pub(crate) fn held(&self) -> Option<EventCfg>
        ensures { result ≡ event_held self.now }
    {
        let numbers = self.numbers;
        Some(EventCfg {
            dtc: self.dtc,
            priority: held_byte(numbers.priority)?,
            cycle: held_byte(numbers.cycle)?,
            confirm: held_byte(numbers.confirm)?,
            heal: held_byte(numbers.heal)?,
            age: held_byte(numbers.age)?,
            indicator: held_flag(numbers.lamp)?,
            needs: held_byte(numbers.needs)?,
            debounce: self.debounce.held()?,
            dids: ArrayVec::new(),
        })
    }
}

/// Whether the number is 1, where it is 0 or 1.
fn held_flag(value: u64) -> Option<bool>
    ensures { result ≡ option_map (λ n. n == 1) (up_to 1 value) }
{
    if 1 < value {
        return None;
    }
    Some(value == 1)
}

#[tactic(auto, unfolding(crate::specs::Event::jump_held))]
fn held_jump(jump: Option<i64>) -> Option<Option<i16>>
    ensures { result ≡ jump_held jump }
{
    match jump {
        None => Some(None),
        Some(jump) if jump < -32_768 || 32_767 < jump => None,
        Some(jump) => Some(Some(jump as i16)),
    }
}

impl DebounceLine {
    ghost use Rattle.flt_script.specs.Event.{debounce_held};

    #[tactic(auto, unfolding(crate::specs::Event::debounce_held))]
    fn held(self) -> Option<Debounce>
        ensures { result ≡ debounce_held self }
    {
        match self {
            DebounceLine::Counter {
                thresholds,
                jump_up,
                jump_down,
            } => Some(Debounce::Counter {
                fail_at: held_positive(thresholds.fail)?,
                pass_at: held_negative(thresholds.pass)?,
                up: held_positive(thresholds.up)?,
                down: held_positive(thresholds.down)?,
                jump_up: held_jump(jump_up)?,
                jump_down: held_jump(jump_down)?,
            }),
            DebounceLine::Time { fail, pass } => Some(Debounce::Time {
                fail: held_word(fail)?,
                pass: held_word(pass)?,
            }),
        }
    }
}
