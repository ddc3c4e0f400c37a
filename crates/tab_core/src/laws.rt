//! Laws of the courses of a store, which its calls rest on.

ghost use Rattle.std.specs.Prelude.{◌≡◌, ℕ, suc, [], None, Some, false, List, IfSome, length, slice_get};
ghost use Rattle.tab_codec.specs.declared.frames.Frame.{Frame};
ghost use Rattle.tab_history.specs.Legality.{accepted};
ghost use Rattle.tab_history.specs.Doubts.{doubt_of};
ghost use Rattle.tab_history.specs.declared.entries.Entry.{Entry};
ghost use Rattle.tab_history.specs.declared.entries.Entry.TheVariants as entry;
ghost use Rattle.tab_history.specs.declared.entries.Doubt.{Doubt};
ghost use Rattle.tab_server.specs.declared.steps.RangeChange.{RangeChange};
ghost use Rattle.tab_server.specs.Contents.{told_ranges, with_change};
ghost use Rattle.tab_server.specs.Serving.{ServerView};
ghost use Rattle.tab_core.specs.Courses.{Course, IsCourse, MayCommit, store_of};
ghost use Rattle.tab_core.specs.Steps.{after_entry, after_entries, Suits, EachSuits, EndsDoubt};
ghost use Rattle.tab_core.specs.Openings.{Reopens, MeetPoints, IsFound};
ghost use Rattle.tab_core.specs.Points.{HoldStores};
ghost use Rattle.tab_core.specs.Images.{StepImages, EachExtends};
ghost use Rattle.tab_core.specs.Cores.{CoreView, KeepsCourse, AreSound, stores_in, with_server, IsSettledServer, IsChangeBy};

use tab_outside::Disk;
use tab_range::Backing;

/// A course keeps what every course keeps while it goes on by entries that suit it.
pub fn courses_stay()
    ensures { (servers : ℕ) (course : Course) (entries : List Entry) → IsCourse servers course → EachSuits servers course entries
        → IsCourse servers (after_entries course entries) }
{}

/// The entries of an opening suit the course that it opens, and behind them nothing is in doubt.
pub fn courses_are_reopened()
    ensures suits { (servers : ℕ) (course : Course) (rest : List Entry) → IsCourse servers course → IfSome course.past.commit (MayCommit servers course)
        → Reopens course rest → EachSuits servers course rest }
    ensures settled { (course : Course) (rest : List Entry) → Reopens course rest → (after_entries course rest).past.doubts ≡ [] }
    ensures no_commit { (course : Course) (rest : List Entry) → Reopens course rest → (after_entries course rest).past.commit ≡ None }
{}

/// Whatever frames are read of disks that hold a course, they spell the course behind the entries of some opening: each operation in doubt stands or
/// does not.
pub fn openings_are_found()
    ensures { (servers : ℕ) (course : Course) (frames : ℕ → List Frame) → IsCourse servers course → IfSome course.past.commit (MayCommit servers course)
        → MeetPoints servers course frames → IsFound course frames }
{}

/// A service whose memory holds a course, and whose disks are sound of what is held, holds the course on its disks: whatever a crash leaves of the two of a
/// store, they spell its point.
pub fn cores_hold_courses<D: Disk, T: Backing>()
    ensures { D.honest → (course : Course) (core : CoreView D T) → KeepsCourse course core → AreSound T.drew T.ready T.kin D.watch core
        → HoldStores D.watch course (stores_in core) }
{}

/// Where disks held a course, and what was written since on those of each store extends what they spelled by frames that meet the store's point behind a
/// step, each image since the step began spells the point before the step or the one behind it.
pub fn steps_have_images<D: Disk>()
    ensures { D.honest → (before after : Course) (stores stores_new : List (D × D)) → HoldStores D.watch before stores → EachExtends D.watch after stores stores_new
        → StepImages D.watch before after stores stores_new }
{}

/// A service goes on with a course by what one server does: a change that it made is that of an accepted operation; a change in doubt did not stand; and a
/// change whose frame is in doubt is an operation in doubt.
pub fn server_steps_keep_courses<D: Disk, T: Backing>()
    ensures made { (course : Course) (core : CoreView D T) (number : ℕ) (old new : ServerView D T) (step : RangeChange) (operation : Doubt) (entry : Entry)
        → KeepsCourse course core → course.past.commit ≡ None → slice_get core.servers number ≡ Some old → Suits (length core.servers) course entry
        → accepted course.past.doubts entry ≡ Some operation → EndsDoubt course operation entry → IsChangeBy course number step operation
        → IsSettledServer number (with_change (told_ranges old.held) step) new → KeepsCourse (after_entry course entry) (with_server core number new) }
    ensures fell { (course : Course) (core : CoreView D T) (number ask : ℕ) (old new : ServerView D T) (operation : Doubt)
        → KeepsCourse course core → course.past.commit ≡ None → slice_get core.servers number ≡ Some old → doubt_of course.past.doubts ask ≡ Some operation
        → store_of course.config operation ≡ suc (suc number) → IsSettledServer number (told_ranges old.held) new
        → KeepsCourse (after_entry course (entry.Settled ask false)) (with_server core number new) }
    ensures doubted { (course : Course) (core : CoreView D T) (number ask now : ℕ) (old new : ServerView D T) (step : RangeChange) (operation : Doubt)
        → KeepsCourse course core → course.past.commit ≡ None → slice_get core.servers number ≡ Some old → Suits (length core.servers) course (entry.Maybe ask now operation)
        → IsChangeBy course number step operation → new.store.number ≡ number → told_ranges new.held ≡ told_ranges old.held → new.doubt ≡ Some step
        → KeepsCourse (after_entry course (entry.Maybe ask now operation)) (with_server core number new) }
{}
