//! Laws: the run of a script, line by line; that a script has one run; and that one in recovery mode changes nothing.
//!
//! A caller that runs a script line by line has printed and done something, and a run is left. As far as that run
//! came, the whole run came behind what was printed and done: so the laws of `specs/RunLaws.antt`, the file to read
//! first, speak of a run's first line.
#![tactic(auto)]

ghost use Rattle.run_laws.specs.ReadingLaws.{HasRunLaw, OneRunLaw};
ghost use Rattle.run_laws.specs.RecoveryLaws.{RecoveryRunLaw};
ghost use Rattle.run_laws.specs.RunLaws.{CameFurtherLaw, CameIntoLaw, CameToEndLaw};
ghost use Rattle.run_laws.specs.RunLaws.{CameIntoLineLaw, CameToNothingLaw, SplitRunLaw, WholeRunLaw};

/// A script has a run on a device in any state, and one alone.
pub fn scripts_have_one_run()
    ensures run { HasRunLaw }
    ensures one { OneRunLaw }
{}

/// A run is told by its first line and the run behind that line: it is closed, refused, or goes on.
pub fn runs_are_split()
    ensures split { SplitRunLaw }
    ensures whole { WholeRunLaw }
{}

/// How far a run came is told by its first step and how far the run behind that step came.
pub fn runs_come_step_by_step()
    ensures end { CameToEndLaw }
    ensures further { CameFurtherLaw }
    ensures into { CameIntoLaw }
{}

/// A run comes into each of its lines: one that prints nothing does nothing.
pub fn runs_come_into_their_lines()
    ensures nothing { CameToNothingLaw }
    ensures into { CameIntoLineLaw }
{}

/// A run of a script in recovery mode changes nothing, and tells no block whose tag differs.
pub fn recovery_runs_change_nothing()
    ensures { RecoveryRunLaw }
{}
