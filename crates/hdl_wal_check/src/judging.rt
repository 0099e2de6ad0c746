//! Whether a file and the log beside it belong together, and are whole.

ghost use Rattle.std.specs.Prelude.{◌≡◌, ◌≢◌, ◌⊎◌, ◌↔◌, ◌<◌, ℕ, false, None, Some, IsTrue};
ghost use Rattle.hdl_wal_check.specs.Pair.{Belongs, IsMarked, NeedsLog, is_refused, is_sound};
ghost use Rattle.hdl_wal_check.specs.declared.notes.FileSummary.TheVariants as files;
ghost use Rattle.hdl_wal_check.specs.declared.walking.WholeLog.{WholeLog};
ghost use Rattle.hdl_wal_check.specs.declared.walking.LogSummary.TheVariants as logs;
ghost use Rattle.hdl_wal_check.specs.declared.walking.Rest.TheVariants as rests;

use crate::notes::FileSummary;
use crate::walking::{LogSummary, Rest, WholeLog};
use crate::{FIRST_NOTE, WHOLE};
use std::fmt;

/// How far a log is whole.
#[derive(Clone, Copy, Debug, PartialEq, Eq)]
pub struct Found {
    /// In octets.
    pub end: u64,
    pub length: u64,
}

/// What is wrong with a file and the log beside it.
#[derive(Clone, Copy, Debug, PartialEq, Eq)]
pub enum PairFault {
    /// The log isn't there, or is empty, and the file needs it.
    LogGone,
    /// The file isn't there, or is empty, and there is a log.
    FileGone,
    /// The log is of an earlier time, or of another file.
    Another,
    /// The log has no front, and changes behind it that the file hasn't.
    Front,
    /// The log isn't whole beyond this, and had more.
    Damaged(Found),
}

impl fmt::Display for PairFault {
    fn fmt<W: fmt::Write>(&self, f: &mut fmt::Formatter<W>) -> fmt::Result {
        match self {
            PairFault::LogGone => f.write_str(
                "the log is gone: the file was served, and its log, the file beside it with -wal at the end, isn't there or is empty; changes may be in that alone",
            ),
            PairFault::FileGone => f.write_str(
                "the file is gone: it isn't there or is empty, and its log is beside it",
            ),
            PairFault::Another => f.write_str(
                "another log: the log beside the file is of an earlier time, or of another file",
            ),
            PairFault::Front => f.write_str(
                "the log is damaged: its first octets aren't those of a log, and the file hasn't got its changes",
            ),
            PairFault::Damaged(Found { end, length }) => write!(
                f,
                "the log is damaged: it is whole for {end} of {length} octets, and had changes behind them"
            ),
        }
    }
}

/// Whether a file is opened over the log beside it.
#[derive(Clone, Copy, Debug, PartialEq, Eq)]
pub enum Verdict {
    Sound,
    /// It is, and behind this there is what was never answered.
    Ends(Found),
    /// It is, if the log was being begun anew: it has no front.
    Begun,
    /// It isn't, unless what is lost is given up.
    Refused(PairFault),
}

/// Whether the log is the one that a file with this note needs, or may have.
fn belongs(note: u32, log: &WholeLog) -> bool
    ensures { IsTrue result ↔ Belongs note log.now }
{
    if log.frames == 0 || log.first.is_none() {
        return true;
    }
    log.has_note || log.first == Some(note.saturating_add(1))
}

/// Judges a log of which nothing is damaged.
fn judge_whole(note: u32, log: &WholeLog) -> Verdict
    ensures another { IsMarked note → ¬ Belongs note log.now → IsTrue (is_refused result) }
    ensures lawful { (IsMarked note → Belongs note log.now) → is_refused result ≡ false }
    ensures told { log.now.rest ≡ rests.Unfinished → is_sound result ≡ false }
{
    let is_marked = note == WHOLE || FIRST_NOTE <= note;
    if is_marked && !belongs(note, log) {
        return Verdict::Refused(PairFault::Another);
    }
    match log.rest {
        Rest::Nothing => Verdict::Sound,
        _ => Verdict::Ends(Found {
            end: log.end,
            length: log.length,
        }),
    }
}

/// Judges a log that has a header.
fn judge_log(note: u32, log: &WholeLog) -> Verdict
    ensures another { IsMarked note → ¬ Belongs note log.now → IsTrue (is_refused result) }
    ensures broken { log.now.rest ≡ rests.Broken → IsTrue (is_refused result) }
    ensures cut { NeedsLog note → log.now.rest ≡ rests.Cut → IsTrue (is_refused result) }
    ensures lawful { (IsMarked note → Belongs note log.now) → (log.now.rest ≡ rests.Nothing) ⊎ (log.now.rest ≡ rests.Unfinished) → is_refused result ≡ false }
    ensures told { log.now.rest ≡ rests.Unfinished → is_sound result ≡ false }
{
    let found = Found {
        end: log.end,
        length: log.length,
    };
    match log.rest {
        Rest::Broken => Verdict::Refused(PairFault::Damaged(found)),
        Rest::Cut if FIRST_NOTE <= note => Verdict::Refused(PairFault::Damaged(found)),
        _ => judge_whole(note, log),
    }
}

/// Judges what lies beside a file with this note.
fn judge_beside(note: u32, log: &LogSummary) -> Verdict
    ensures gone { NeedsLog note → log.now ≡ logs.Nothing → IsTrue (is_refused result) }
    ensures another { (w : WholeLog) → log.now ≡ logs.Whole w → IsMarked note → ¬ Belongs note w → IsTrue (is_refused result) }
    ensures broken { (w : WholeLog) → log.now ≡ logs.Whole w → w.rest ≡ rests.Broken → IsTrue (is_refused result) }
    ensures cut { (w : WholeLog) → log.now ≡ logs.Whole w → NeedsLog note → w.rest ≡ rests.Cut → IsTrue (is_refused result) }
    ensures front { (l : ℕ) → log.now ≡ logs.Begun (Some l) → l ≢ note → IsTrue (is_refused result) }
    ensures noise { log.now ≡ logs.Noise → IsTrue (is_refused result) }
    ensures begun { (log.now ≡ logs.Begun None) ⊎ (log.now ≡ logs.Begun (Some note)) → is_refused result ≡ false }
    ensures unneeded { ¬ NeedsLog note → log.now ≡ logs.Nothing → is_refused result ≡ false }
    ensures lawful { (w : WholeLog) → log.now ≡ logs.Whole w → (IsMarked note → Belongs note w) → (w.rest ≡ rests.Nothing) ⊎ (w.rest ≡ rests.Unfinished) → is_refused result ≡ false }
    ensures told { (w : WholeLog) → log.now ≡ logs.Whole w → w.rest ≡ rests.Unfinished → is_sound result ≡ false }
{
    match log {
        LogSummary::Nothing => {
            if FIRST_NOTE <= note {
                Verdict::Refused(PairFault::LogGone)
            } else {
                Verdict::Sound
            }
        }
        LogSummary::Begun(Some(last)) if *last != note => Verdict::Refused(PairFault::Front),
        LogSummary::Begun(_) => Verdict::Begun,
        LogSummary::Noise => Verdict::Refused(PairFault::Front),
        LogSummary::Whole(log) => judge_log(note, log),
    }
}

/// Judges a log beside which there is no file.
fn judge_alone(log: &LogSummary) -> Verdict
    ensures alone { (w : WholeLog) → log.now ≡ logs.Whole w → 0 < w.frames → IsTrue (is_refused result) }
    ensures new { log.now ≡ logs.Nothing → is_refused result ≡ false }
{
    match log {
        LogSummary::Nothing | LogSummary::Begun(None) => Verdict::Sound,
        LogSummary::Begun(Some(_)) | LogSummary::Noise => Verdict::Refused(PairFault::FileGone),
        LogSummary::Whole(log) => {
            if log.is_making && log.frames == 0 {
                Verdict::Sound
            } else {
                Verdict::Refused(PairFault::FileGone)
            }
        }
    }
}

/// Judges a file and the log beside it, which was looked through for the file's note. What a kill leaves is never refused, and what comes behind the last change that was done is told.
pub fn judge(file: &FileSummary, log: &LogSummary) -> Verdict
    ensures gone { (n : ℕ) → file.now ≡ files.Noted n → NeedsLog n → log.now ≡ logs.Nothing → IsTrue (is_refused result) }
    ensures another { (n : ℕ) (w : WholeLog) → file.now ≡ files.Noted n → log.now ≡ logs.Whole w → IsMarked n → ¬ Belongs n w → IsTrue (is_refused result) }
    ensures broken { (n : ℕ) (w : WholeLog) → file.now ≡ files.Noted n → log.now ≡ logs.Whole w → w.rest ≡ rests.Broken → IsTrue (is_refused result) }
    ensures cut { (n : ℕ) (w : WholeLog) → file.now ≡ files.Noted n → log.now ≡ logs.Whole w → NeedsLog n → w.rest ≡ rests.Cut → IsTrue (is_refused result) }
    ensures front { (n l : ℕ) → file.now ≡ files.Noted n → log.now ≡ logs.Begun (Some l) → l ≢ n → IsTrue (is_refused result) }
    ensures noise { (n : ℕ) → file.now ≡ files.Noted n → log.now ≡ logs.Noise → IsTrue (is_refused result) }
    ensures alone { (w : WholeLog) → file.now ≡ files.Nothing → log.now ≡ logs.Whole w → 0 < w.frames → IsTrue (is_refused result) }
    ensures new { file.now ≡ files.Nothing → log.now ≡ logs.Nothing → is_refused result ≡ false }
    ensures begun { (n : ℕ) → file.now ≡ files.Noted n → (log.now ≡ logs.Begun None) ⊎ (log.now ≡ logs.Begun (Some n)) → is_refused result ≡ false }
    ensures unneeded { (n : ℕ) → file.now ≡ files.Noted n → ¬ NeedsLog n → log.now ≡ logs.Nothing → is_refused result ≡ false }
    ensures lawful { (n : ℕ) (w : WholeLog) → file.now ≡ files.Noted n → log.now ≡ logs.Whole w → (IsMarked n → Belongs n w) → (w.rest ≡ rests.Nothing) ⊎ (w.rest ≡ rests.Unfinished) → is_refused result ≡ false }
    ensures told { (n : ℕ) (w : WholeLog) → file.now ≡ files.Noted n → log.now ≡ logs.Whole w → w.rest ≡ rests.Unfinished → is_sound result ≡ false }
{
    match file {
        FileSummary::Nothing => judge_alone(log),
        FileSummary::Other => Verdict::Sound,
        FileSummary::Noted(note) => judge_beside(*note, log),
    }
}

/// Whether nothing stands in the log but its note, which the file needs.
pub fn is_settled(file: &FileSummary, log: &LogSummary) -> bool {
    match (file, log) {
        (FileSummary::Noted(note), LogSummary::Whole(log)) => {
            let is_next = log.first == Some(note.saturating_add(1));
            FIRST_NOTE <= *note && log.frames == 1 && is_next
        }
        _ => false,
    }
}
