// The reading of a recovery: every record once, from the head on.
ghost use Rattle.std.specs.Prelude.{◌≡◌, true, IfNone, IfSome};
ghost use Rattle.log_region.specs.Region.{records_of};
ghost use Rattle.model.specs.Lists.{any};
ghost use Rattle.model.specs.Readings.{is_bad};
ghost use Rattle.recovery.specs.Recovering.{Scanned};

use log_region::Record;

// The records of a log on a machine of W words: all from the head up to the tail are good. For each thread there is the
// number of its last commit, or 0.
#[derive(Clone, Copy)]
pub(crate) struct Records<'a> {
    pub(crate) log: &'a [u64],
    pub(crate) words: u16,
    pub(crate) head: u64,
    pub(crate) tail: u64,
    pub(crate) last: [u64; 8],
}

// Every record read, from the head on to the first that is not there; none if one is bad.
pub(crate) fn scan<'a>(log: &'a [u64], words: u16) -> Option<Records<'a>>
    ensures none { IfNone result (any is_bad (records_of words log.now) ≡ true) }
    ensures some { IfSome result (λ found. Scanned words log.now found) }
{
    let head = log_region::head(log);
    let mut tail = head;
    let mut last = [0; 8];
    for _ in 0..log_region::slots(log) {
        if !log_region::is_written(log, tail) {
            break;
        }
        if let Record::Commit { thread } = log_region::read(log, tail, words)? {
            last[thread as usize] = tail;
        }
        tail += 1;
    }
    Some(Records {
        log,
        words,
        head,
        tail,
        last,
    })
}
