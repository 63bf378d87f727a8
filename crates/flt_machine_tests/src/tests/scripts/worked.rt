//! Worked examples of lives and of scripts, which the checker computes: of what is not so as well, where a rule that is left out would
//! let it be so.
ghost use Rattle.flt_flash.specs.declared.arm.Arm.{Arm};
ghost use Rattle.flt_config.specs.declared.config.Config.{Config};
ghost use Rattle.flt_config.specs.declared.persist.Persist.{Persist};
ghost use Rattle.flt_machine_tests.specs.LifeExamples.{NumbersDoNotLeap, DarkLifeKeepsBlocks, RunsDoNotStop, OtherJobsDoNotCount, ReadsDoNotLookAhead, DrainsDoNotStopEarly, StartsEndAtTheirOwnArm, ArmsStayInTheirLife, DarkLifeArms, LastIsNamed};
ghost use Rattle.flt_machine_tests.specs.ScriptExamples.{BytesOfALine, NumbersHaveTenDigits, NumbersOfACounter, NumbersOfAnEvent, WorkedLoad};

/// Numbers that are acknowledged do not leap.
pub fn numbers_do_not_leap()
    ensures { NumbersDoNotLeap }
{}

/// A dark life leaves the application blocks as they were.
pub fn dark_life_keeps_blocks()
    ensures { DarkLifeKeepsBlocks }
{}

/// A run does not stop after a life that is not refused.
pub fn runs_do_not_stop()
    ensures { RunsDoNotStop }
{}

/// A block does not hold the bytes of another block's job.
pub fn other_jobs_do_not_count()
    ensures { OtherJobsDoNotCount }
{}

/// A read does not answer by a drain after it.
pub fn reads_do_not_look_ahead()
    ensures { ReadsDoNotLookAhead }
{}

/// A drain does not stop while jobs wait, before the 32nd.
pub fn drains_do_not_stop_early()
    ensures { DrainsDoNotStopEarly }
{}

/// The start of a life ends at its own first arm.
pub fn starts_end_at_their_own_arm()
    ensures { (arm : Arm) → StartsEndAtTheirOwnArm arm }
{}

/// An arm is made in its own life.
pub fn arms_stay_in_their_life()
    ensures { (arm : Arm) → ArmsStayInTheirLife arm }
{}

/// A dark life makes its arms.
pub fn dark_life_arms()
    ensures { DarkLifeArms }
{}

/// The generation that was acknowledged last is named with its state, also after a dark life.
pub fn last_is_named()
    ensures { (c : Config) (state : Persist) → LastIsNamed c state }
{}

/// A number has 1 to 10 digits, also after a minus sign.
pub fn numbers_have_ten_digits()
    ensures { NumbersHaveTenDigits }
{}

/// The bytes at the bounds of what a line may have.
pub fn bytes_of_a_line()
    ensures { BytesOfALine }
{}

/// Each number of an event is kept up to its greatest value.
pub fn numbers_of_an_event()
    ensures { NumbersOfAnEvent }
{}

/// Each number of a counter is kept up to its greatest value.
pub fn numbers_of_a_counter()
    ensures { NumbersOfACounter }
{}

/// The configuration of a load, and the reports of one of nine reports.
pub fn worked_load()
    ensures { WorkedLoad }
{}
