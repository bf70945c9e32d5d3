//! Where the events of a run are said.
use crate::wall_clock::WallClock;
use event_log::{Level, LogField, json_line, text_line, time_text};
use http_lane::Clock as Moments;
use std::alloc::{AllocError, Global};
use std::io::Write;
use std::time::Clock;
use tsc_config::LogForm;

/// Says events in one form, a line for each. What can't be said, since there is no memory or the writer takes nothing,
/// is left out.
#[derive(Drop)]
pub struct EventWriter<W: Write + Drop> {
    writer: W,
    form: LogForm,
}

impl<W: Write + Drop> EventWriter<W> {
    /// Says them to this writer.
    pub fn new(writer: W, form: LogForm) -> Self {
        EventWriter { writer, form }
    }

    /// Says an event that is now, and whether there is a line of it.
    pub fn say<R: Clock>(
        &mut self,
        rt: &R,
        alloc: Global,
        level: Level,
        event: &str,
        fields: &[LogField<'_>],
    ) -> bool {
        // Not the run's clock: a line of the log is compared with other logs (D-185).
        let moment = WallClock::new(rt).now();
        match line_of(alloc, self.form, moment, level, event, fields) {
            Ok(Some(line)) => self.writer.write_all(line.as_bytes()).is_ok(),
            _ => false,
        }
    }
}

/// The line of an event in a form; `None`: it has none.
fn line_of(
    alloc: Global,
    form: LogForm,
    moment: u64,
    level: Level,
    event: &str,
    fields: &[LogField<'_>],
) -> Result<Option<String>, AllocError> {
    if form == LogForm::Off {
        return Ok(None);
    }
    let time = time_text(alloc, moment)?;
    let line = if form == LogForm::Json {
        json_line(alloc, time.as_str(), level, event, fields)?
    } else {
        text_line(alloc, time.as_str(), level, event, fields)?
    };
    Ok(Some(line))
}
