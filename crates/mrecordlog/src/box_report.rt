// A report over a box of cards.
// Kept: the C interface is told the values of an answer one by one, and refusals as numbers.
ghost use Rattle.std.specs.Prelude.{◌≡◌};
ghost use Rattle.report.specs.Feed.{feed_answer, feed_left, feed_number, mean_answer};
ghost use Rattle.mrecordlog.specs.Reported.{mean_told, tell_mean};

use report::{MeanLength, ReportRefusal};

#[tactic(auto, unfolding(crate::specs::Reported::tell_mean))]
fn tell_mean(
    answer: Result<Option<MeanLength>, ReportRefusal>,
    found: &mut u64,
    quotient: &mut u64,
    rest: &mut u64,
    frames: &mut u64,
) -> u64
    ensures { mean_told result found.new quotient.new rest.new frames.new
        ≡ tell_mean answer }
{
    match answer {
        Ok(Some(mean)) => {
            *found = 1;
            *quotient = mean.whole;
            *rest = mean.remainder;
            *frames = mean.count;
            0
        }
        Ok(None) => {
            *found = 0;
            *quotient = 0;
            *rest = 0;
            *frames = 0;
            0
        }
        Err(refusal) => {
            *found = 0;
            *quotient = 0;
            *rest = 0;
            *frames = 0;
            refusal.number()
        }
    }
}

// A log counted into the report.
#[unsafe(no_mangle)]
pub extern "C" fn mrecordlog_report_feed(report: &mut [u8], log: &[u8]) -> u64
    ensures { (result ≡ feed_number (feed_answer report.old log.now))
        × (report.new ≡ feed_left report.old log.now) }
{
    report::number(report::feed(report, log))
}

// The mean data length of the sound frames that the report counts.
#[unsafe(no_mangle)]
pub extern "C" fn mrecordlog_report_mean(
    report: &[u8],
    found: &mut u64,
    whole: &mut u64,
    remainder: &mut u64,
    count: &mut u64,
) -> u64
    ensures { mean_told result found.new whole.new remainder.new count.new
        ≡ tell_mean (mean_answer report.now) }
{
    let answer = report::mean(report);
    tell_mean(answer, found, whole, remainder, count)
}
