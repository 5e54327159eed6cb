//! Writes the answers to one map.

ghost use Rattle.std.specs.Prelude.{◌<◌, ◌∷◌, [], OnOk, OnErr};
ghost use Rattle.pon_device.specs.Device.{CountsFailure};
ghost use Rattle.pon_link.specs.Outputs.{IsWritable, Writes, WritesPart, HasAnswered, HasBegun};
ghost use Rattle.pon_link.specs.Series.{KeepsSeries};

use crate::encode::encode_up;
use crate::record::{DownRecord, UpRecord};
use crate::series::series_len;
use crate::series_answers::answer_series;
use crate::unit::Unit;
use pon_bwmap::Alloc;
use pon_device::{DevWrite, Failed, write_all};
use pon_units::FrameNo;

// Writes the record of an answer.
fn write_answer<W: DevWrite>(writer: &mut W, answer: &UpRecord) -> Result<(), Failed>
    requires { IsWritable answer.now }
    ensures ok { OnOk result (Writes (W.contents writer.old) (W.contents writer.new)
        (answer.now ∷ [])) }
    ensures err { OnErr result (WritesPart (W.contents writer.old) (W.contents writer.new)
        (answer.now ∷ [])) }
    ensures failures { CountsFailure (W.failures writer.old) (W.failures writer.new) result }
{
    let bytes = encode_up(answer);
    write_all(writer, bytes.as_slice())
}

// Answers the series one after another, and writes each answer before the next.
fn write_answers<W: DevWrite>(
    units: &mut [Unit],
    next: &mut usize,
    frame: FrameNo,
    rows: &[Alloc],
    writer: &mut W,
) -> Result<(), Failed>
    requires { KeepsSeries rows.now }
    ensures ok { OnOk result (HasAnswered frame rows.now [] units.old units.new
        (W.contents writer.old) (W.contents writer.new)) }
    ensures err { OnErr result (HasBegun frame rows.now units.old units.new
        (W.contents writer.old) (W.contents writer.new)) }
    ensures failures { CountsFailure (W.failures writer.old) (W.failures writer.new) result }
{
    let mut rest = rows;
    while !rest.is_empty() {
        let (series, later) = rest.split_at(series_len(rest));
        let answer = answer_series(units, next, frame, series);
        match write_answer(writer, &answer) {
            Ok(()) => rest = later,
            Err(failed) => return Err(failed),
        }
    }
    Ok(())
}

// Answers a map, writes all of its answers, and flushes the writer.
pub(crate) fn answer_map<W: DevWrite>(
    units: &mut [Unit],
    next: &mut usize,
    received: &DownRecord,
    writer: &mut W,
) -> Result<(), Failed>
    ensures ok { OnOk result (HasAnswered received.now.frame received.now.map []
        units.old units.new (W.contents writer.old) (W.contents writer.new)) }
    ensures err { OnErr result (HasBegun received.now.frame received.now.map
        units.old units.new (W.contents writer.old) (W.contents writer.new)) }
    ensures failures { CountsFailure (W.failures writer.old) (W.failures writer.new) result }
{
    match write_answers(units, next, received.frame, received.map.rows(), writer) {
        Ok(()) => writer.flush(),
        Err(failed) => Err(failed),
    }
}
