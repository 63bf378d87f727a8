//! What holds of every event manager.

ghost use Rattle.flt_dem.specs.Laws.{StoringFollowsMarks, IdleCallsChangeNothing, SettingIsOnWithoutRequests, ViewIsTold};

/// The entries after storing an event are those that its marks decide.
pub fn storing_follows_marks()
    ensures { StoringFollowsMarks }
{}

/// A show, a snapshot, a save and a request that clears no event change nothing of an event manager.
pub fn idle_calls_change_nothing()
    ensures { IdleCallsChangeNothing }
{}

/// Where no tester made a request, the setting is on.
pub fn setting_is_on_without_requests()
    ensures { SettingIsOnWithoutRequests }
{}

/// What a tester may read of the events is what the calls so far make of it.
pub fn view_is_told()
    ensures { ViewIsTold }
{}
