//! What follows from the chain of lives.
ghost use Rattle.flt_life_model.specs.Laws.{AcknowledgedIsNeverLost, SoundRunsStaySound};
ghost use Rattle.flt_life_model.specs.Statuses.{EachStatusHasCause};

/// If the first image of a run is sound, every image is, also at the end, and no life is refused as damaged or of another
/// configuration.
pub fn sound_runs_stay_sound()
    ensures { SoundRunsStaySound }
{}

/// The status of a run, which follows from how its last life began, has its cause.
pub fn statuses_have_causes()
    ensures { EachStatusHasCause }
{}

/// If the first image of a run is sound, each power-up (and the end) finds an image of which neither generation is older than the one
/// acknowledged last in all lives before it, dark ones included; and no life that is started begins with an older one. One that has the
/// number that was acknowledged last has the state that was acknowledged.
pub fn acknowledged_is_never_lost()
    ensures { AcknowledgedIsNeverLost }
{}
