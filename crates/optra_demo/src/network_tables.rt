//! The tables of a demo's network.
ghost use Rattle.std.specs.Prelude.{◌≡◌, ◌+◌, ◌≤◌, ◌++◌, ◌∷◌, [], true, length, map, All, IfOk, OnOk};
ghost use Rattle.std.specs.List.{flat_map, range_with_len};
ghost use Rattle.optra_records.specs.Texts.{is_shown, record_text, records_text};
ghost use Rattle.optra_demo.specs.Draws.{after, given, next_state};
ghost use Rattle.optra_demo.specs.Kinds.{all_kinds};
ghost use Rattle.optra_demo.specs.Names.{named, station_name};
ghost use Rattle.optra_demo.specs.Networks.{headway_records, headway_row, headway_rows, headways_header, running_header, running_records, running_row, running_rows, segment_minutes, segment_running, segments, station_records, station_rows, track_headways, track_records, track_rows, type_records, type_row};
ghost use Rattle.optra_demo.specs.Ranges.{IsSegment};

use crate::draws::Draws;
use crate::kinds::{Kind, extra_of, kind_name};
use crate::names::{name, put_name};
use optra_records::{Fields, Printer};
use std::alloc::{AllocError, Global};

/// The letter of the stations.
const STATION: &str = "S";
/// The letter of the tracks onwards.
const ONWARD: &str = "T";
/// The letter of the tracks back.
const BACK: &str = "U";
/// The least minutes of a segment.
const LEAST_MINUTES: u32 = 4;
/// The least headway, in minutes.
const LEAST_HEADWAY: u64 = 3;

/// The minutes of so many segments, by the next draws.
pub fn draw_segments(alloc: Global, draws: &mut Draws, count: u32) -> Result<Vec<u32>, AllocError>
    ensures minutes { IfOk result (λ minutes. minutes.items ≡ segment_minutes draws.old count) }
    ensures range { IfOk result (λ minutes. All IsSegment minutes.items) }
    ensures count { IfOk result (λ minutes. length minutes.items ≡ count) }
    ensures state { OnOk result (draws.new ≡ after draws.old count) }
{
    let mut minutes = Vec::new(alloc);
    'segments: for _segment in 0..count {
        minutes.push(draw_segment(draws))?;
    }
    Ok(minutes)
}

/// The minutes of a segment, by the next draw.
fn draw_segment(draws: &mut Draws) -> u32
    ensures state { draws.new ≡ next_state draws.old }
    ensures value { result ≡ 4 + given draws.new 5 }
    ensures range { IsSegment result }
{
    LEAST_MINUTES + draws.draw(5)
}

/// The table of the stations.
pub fn stations_text(alloc: Global, stations: u64) -> Result<Vec<u8>, AllocError>
    requires { stations ≤ 36 }
    ensures { IfOk result (λ text. text.items ≡ records_text (station_records stations)) }
{
    let mut printer = Printer::new(alloc);
    let mut fields = Fields::new(alloc);
    print_texts(&mut printer, &mut fields, &["station"])?;
    print_stations(alloc, &mut printer, &mut fields, stations)?;
    printer.finish()
}

/// The table of the tracks over so many segments.
pub fn tracks_text(alloc: Global, count: u64) -> Result<Vec<u8>, AllocError>
    requires { count ≤ 35 }
    ensures { IfOk result (λ text. text.items ≡ records_text (track_records count)) }
{
    let mut printer = Printer::new(alloc);
    let mut fields = Fields::new(alloc);
    print_texts(&mut printer, &mut fields, &["track", "from", "to"])?;
    print_segments(alloc, &mut printer, &mut fields, count)?;
    printer.finish()
}

/// The table of the types.
pub fn types_text(alloc: Global) -> Result<Vec<u8>, AllocError>
    ensures { IfOk result (λ text. text.items ≡ records_text type_records) }
{
    let mut printer = Printer::new(alloc);
    let mut fields = Fields::new(alloc);
    print_texts(&mut printer, &mut fields, &["type"])?;
    print_types(&mut printer, &mut fields)?;
    printer.finish()
}

/// The table of the running times over segments of these minutes.
pub fn running_text(alloc: Global, minutes: &[u32]) -> Result<Vec<u8>, AllocError>
    requires few { length minutes.now ≤ 35 }
    requires range { All IsSegment minutes.now }
    ensures { IfOk result (λ text. text.items ≡ records_text (running_records minutes.now)) }
{
    let mut printer = Printer::new(alloc);
    let mut fields = Fields::new(alloc);
    print_running_header(&mut printer, &mut fields)?;
    print_running_times(alloc, &mut printer, &mut fields, minutes)?;
    printer.finish()
}

/// The table of the headways over so many segments.
pub fn headways_text(alloc: Global, count: u64) -> Result<Vec<u8>, AllocError>
    requires { count ≤ 35 }
    ensures { IfOk result (λ text. text.items ≡ records_text (headway_records count)) }
{
    let mut printer = Printer::new(alloc);
    let mut fields = Fields::new(alloc);
    print_headways_header(&mut printer, &mut fields)?;
    print_all_headways(alloc, &mut printer, &mut fields, count)?;
    printer.finish()
}

/// Prints a record of texts.
pub fn print_texts(
    printer: &mut Printer,
    fields: &mut Fields,
    texts: &[&str],
) -> Result<(), AllocError>
    requires { is_shown (map (λ text. text.now) texts.now) ≡ true }
    ensures { OnOk result (printer.new ≡ printer.old ++ record_text
        (map (λ text. text.now) texts.now)) }
{
    fields.clear();
    fields.texts(texts)?;
    printer.print(fields)
}

/// Prints the types.
fn print_types(printer: &mut Printer, fields: &mut Fields) -> Result<(), AllocError>
    ensures { OnOk result (printer.new ≡ printer.old ++ records_text (map type_row all_kinds)) }
{
    print_texts(printer, fields, &["ic"])?;
    print_texts(printer, fields, &["re"])?;
    print_texts(printer, fields, &["fr"])
}

/// Prints the stations.
fn print_stations(
    alloc: Global,
    printer: &mut Printer,
    fields: &mut Fields,
    stations: u64,
) -> Result<(), AllocError>
    requires { stations ≤ 36 }
    ensures { OnOk result (printer.new ≡ printer.old ++ records_text
        (flat_map station_rows (range_with_len 1 stations))) }
{
    'stations: for k in 0..stations {
        print_station(alloc, printer, fields, k + 1)?;
    }
    Ok(())
}

/// Prints the tracks of so many segments.
fn print_segments(
    alloc: Global,
    printer: &mut Printer,
    fields: &mut Fields,
    count: u64,
) -> Result<(), AllocError>
    requires { count ≤ 35 }
    ensures { OnOk result (printer.new ≡ printer.old ++ records_text
        (flat_map track_rows (segments count))) }
{
    'segments: for k in 0..count {
        print_tracks(alloc, printer, fields, k + 1)?;
    }
    Ok(())
}

/// Prints the running times of segments of these minutes.
fn print_running_times(
    alloc: Global,
    printer: &mut Printer,
    fields: &mut Fields,
    minutes: &[u32],
) -> Result<(), AllocError>
    requires few { length minutes.now ≤ 35 }
    requires range { All IsSegment minutes.now }
    ensures { OnOk result (printer.new ≡ printer.old ++ records_text
        (flat_map (running_rows minutes.now) (segments (length minutes.now)))) }
{
    'segments: for (k, least) in minutes.iter().enumerate() {
        print_running_of(alloc, printer, fields, k as u64 + 1, u64::from(*least))?;
    }
    Ok(())
}

/// Prints the headways of so many segments.
fn print_all_headways(
    alloc: Global,
    printer: &mut Printer,
    fields: &mut Fields,
    count: u64,
) -> Result<(), AllocError>
    requires { count ≤ 35 }
    ensures { OnOk result (printer.new ≡ printer.old ++ records_text
        (flat_map headway_rows (segments count))) }
{
    'segments: for k in 0..count {
        print_headways_of(alloc, printer, fields, k + 1)?;
    }
    Ok(())
}

/// Prints the running times of the two tracks of a segment of so many minutes.
fn print_running_of(
    alloc: Global,
    printer: &mut Printer,
    fields: &mut Fields,
    i: u64,
    minutes: u64,
) -> Result<(), AllocError>
    requires { minutes ≤ 8 }
    ensures { OnOk result (printer.new ≡ printer.old ++ records_text (segment_running i minutes)) }
{
    let onward = name(alloc, ONWARD, i)?;
    print_running(printer, fields, onward.as_str(), minutes)?;
    let back = name(alloc, BACK, i)?;
    print_running(printer, fields, back.as_str(), minutes)
}

/// Prints a station.
fn print_station(
    alloc: Global,
    printer: &mut Printer,
    fields: &mut Fields,
    i: u64,
) -> Result<(), AllocError>
    ensures { OnOk result (printer.new ≡ printer.old ++ records_text (station_rows i)) }
{
    fields.clear();
    put_name(alloc, fields, STATION, i)?;
    printer.print(fields)
}

/// Prints the two tracks of a segment.
fn print_tracks(
    alloc: Global,
    printer: &mut Printer,
    fields: &mut Fields,
    i: u64,
) -> Result<(), AllocError>
    requires { i ≤ 35 }
    ensures { OnOk result (printer.new ≡ printer.old ++ records_text (track_rows i)) }
{
    print_track(alloc, printer, fields, ONWARD, i, i, i + 1)?;
    print_track(alloc, printer, fields, BACK, i, i + 1, i)
}

/// Prints a track from one station to another.
fn print_track(
    alloc: Global,
    printer: &mut Printer,
    fields: &mut Fields,
    letter: &str,
    i: u64,
    from: u64,
    to: u64,
) -> Result<(), AllocError>
    ensures { OnOk result (printer.new ≡ printer.old ++ record_text
        (named letter.now i ∷ station_name from ∷ station_name to ∷ [])) }
{
    fields.clear();
    put_name(alloc, fields, letter, i)?;
    put_name(alloc, fields, STATION, from)?;
    put_name(alloc, fields, STATION, to)?;
    printer.print(fields)
}

fn print_running_header(printer: &mut Printer, fields: &mut Fields) -> Result<(), AllocError>
    ensures { OnOk result (printer.new ≡ printer.old ++ record_text running_header) }
{
    let header = [
        "track",
        "type",
        "pass_pass",
        "pass_halt",
        "halt_pass",
        "halt_halt",
    ];
    print_texts(printer, fields, &header)
}

/// Prints the running times of a track of so many minutes.
fn print_running(
    printer: &mut Printer,
    fields: &mut Fields,
    track: &str,
    minutes: u64,
) -> Result<(), AllocError>
    requires { minutes ≤ 8 }
    ensures { OnOk result (printer.new ≡ printer.old ++ records_text
        (map (running_row track.now minutes) all_kinds)) }
{
    print_running_row(printer, fields, track, minutes, Kind::Ic)?;
    print_running_row(printer, fields, track, minutes, Kind::Re)?;
    print_running_row(printer, fields, track, minutes, Kind::Fr)
}

/// Prints the running times of a type on a track.
fn print_running_row(
    printer: &mut Printer,
    fields: &mut Fields,
    track: &str,
    minutes: u64,
    kind: Kind,
) -> Result<(), AllocError>
    requires { minutes ≤ 8 }
    ensures { OnOk result (printer.new ≡ printer.old ++ record_text
        (running_row track.now minutes kind)) }
{
    let least = minutes + extra_of(kind);
    fields.clear();
    fields.text(track)?;
    fields.text(kind_name(kind))?;
    fields.number(least)?;
    fields.number(least + 1)?;
    fields.number(least + 1)?;
    fields.number(least + 2)?;
    printer.print(fields)
}

fn print_headways_header(printer: &mut Printer, fields: &mut Fields) -> Result<(), AllocError>
    ensures { OnOk result (printer.new ≡ printer.old ++ record_text headways_header) }
{
    print_texts(printer, fields, &["track", "first", "second", "minutes"])
}

/// Prints the headways of the two tracks of a segment.
fn print_headways_of(
    alloc: Global,
    printer: &mut Printer,
    fields: &mut Fields,
    i: u64,
) -> Result<(), AllocError>
    ensures { OnOk result (printer.new ≡ printer.old ++ records_text (headway_rows i)) }
{
    let onward = name(alloc, ONWARD, i)?;
    print_headways(printer, fields, onward.as_str())?;
    let back = name(alloc, BACK, i)?;
    print_headways(printer, fields, back.as_str())
}

/// Prints the headways of a track.
fn print_headways(printer: &mut Printer, fields: &mut Fields, track: &str) -> Result<(), AllocError>
    ensures { OnOk result (printer.new ≡ printer.old ++ records_text (track_headways track.now)) }
{
    print_headways_behind(printer, fields, track, Kind::Ic)?;
    print_headways_behind(printer, fields, track, Kind::Re)?;
    print_headways_behind(printer, fields, track, Kind::Fr)
}

/// Prints the headways behind a first type on a track.
fn print_headways_behind(
    printer: &mut Printer,
    fields: &mut Fields,
    track: &str,
    first: Kind,
) -> Result<(), AllocError>
    ensures { OnOk result (printer.new ≡ printer.old ++ records_text
        (map (headway_row track.now first) all_kinds)) }
{
    print_headway(printer, fields, track, first, Kind::Ic)?;
    print_headway(printer, fields, track, first, Kind::Re)?;
    print_headway(printer, fields, track, first, Kind::Fr)
}

/// Prints the headway between two types on a track.
fn print_headway(
    printer: &mut Printer,
    fields: &mut Fields,
    track: &str,
    first: Kind,
    second: Kind,
) -> Result<(), AllocError>
    ensures { OnOk result (printer.new ≡ printer.old ++ record_text
        (headway_row track.now first second)) }
{
    let slower = extra_of(first).saturating_sub(extra_of(second));
    fields.clear();
    fields.text(track)?;
    fields.text(kind_name(first))?;
    fields.text(kind_name(second))?;
    fields.number(LEAST_HEADWAY + slower)?;
    printer.print(fields)
}
