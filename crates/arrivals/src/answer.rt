// What an answer says, as it is printed.
use clock::IsoDateTime;
use sheet::{Arrival, Reading, Refusal};
use std::fmt;
use table_end::Counts;
use time_zone::TimeZone;
use zone_table::TableFault;

/// One line of answer.
#[derive(Clone, Copy)]
pub enum Answer {
    // The line of this number has no such form, or nothing to act on.
    BadLine(u64),
    Table(Counts),
    RefusedTable(TableFault),
    Opened,
    Arrival(Arrival),
    Reading(Reading),
    // Whether the berth was filled.
    Cleared(bool),
    Refused(Refusal),
}

#[derive(Clone, Copy)]
struct Zone(TimeZone);

impl fmt::Display for Zone {
    fn fmt<W: fmt::Write>(&self, f: &mut fmt::Formatter<W>) -> fmt::Result {
        match self.0 {
            TimeZone::Named(number) => write!(f, "named:{number}"),
            TimeZone::Fixed(minutes) => write!(f, "fixed:{minutes}"),
        }
    }
}

#[derive(Clone, Copy)]
struct Held(Arrival);

impl fmt::Display for Held {
    fn fmt<W: fmt::Write>(&self, f: &mut fmt::Formatter<W>) -> fmt::Result {
        let zone = Zone(self.0.zone);
        let instant = self.0.instant;
        let offset = self.0.offset;
        write!(
            f,
            "zone={zone} instant={},{} offset={offset}",
            instant.seconds, instant.nanos
        )
    }
}

#[derive(Clone, Copy)]
struct Local(IsoDateTime);

impl fmt::Display for Local {
    // The year has four digits or more, behind its sign.
    fn fmt<W: fmt::Write>(&self, f: &mut fmt::Formatter<W>) -> fmt::Result {
        let date = self.0.date;
        let time = self.0.time;
        let sign = if date.year < 0 { "-" } else { "" };
        let year = date.year.unsigned_abs();
        write!(f, "{sign}{year:04}-{:02}-{:02}", date.month, date.day)?;
        write!(f, "T{:02}:{:02}:{:02}", time.hour, time.minute, time.second)?;
        write!(f, ".{:09}", time.nanosecond)
    }
}

#[derive(Clone, Copy)]
struct ByTable(TableFault);

impl fmt::Display for ByTable {
    fn fmt<W: fmt::Write>(&self, f: &mut fmt::Formatter<W>) -> fmt::Result {
        write!(f, "{} layer=table berth=0", self.0.number())?;
        match self.0 {
            TableFault::Sizes => Ok(()),
            TableFault::BrokenRow(row) => write!(f, " row={row}"),
        }
    }
}

#[derive(Clone, Copy)]
struct ByCall(Refusal);

impl fmt::Display for ByCall {
    fn fmt<W: fmt::Write>(&self, f: &mut fmt::Formatter<W>) -> fmt::Result {
        let number = self.0.number();
        let layer = self.0.layer();
        let berth = self.0.berth;
        write!(f, "{number} layer={layer} berth={berth}")?;
        match self.0.source() {
            None => Ok(()),
            Some(source) => write!(f, " end={} zone={}", source.end.number(), source.zone),
        }
    }
}

impl fmt::Display for Answer {
    fn fmt<W: fmt::Write>(&self, f: &mut fmt::Formatter<W>) -> fmt::Result {
        match self {
            Answer::BadLine(number) => write!(f, "error line={number}"),
            Answer::Table(counts) => write!(f, "table zones={} rows={}", counts.zones, counts.rows),
            Answer::RefusedTable(fault) => write!(f, "refused {}", ByTable(*fault)),
            Answer::Opened => f.write_str("granted"),
            Answer::Arrival(arrival) => write!(f, "granted {}", Held(*arrival)),
            Answer::Reading(reading) => write!(
                f,
                "granted {} local={}",
                Held(reading.arrival),
                Local(reading.local)
            ),
            Answer::Cleared(true) => f.write_str("granted filled"),
            Answer::Cleared(false) => f.write_str("granted empty"),
            Answer::Refused(refusal) => write!(f, "refused {}", ByCall(*refusal)),
        }
    }
}
