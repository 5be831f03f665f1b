//! The line of a row, in each form.

ghost use Rattle.std.specs.Prelude.{◌≡◌, ◌++◌, IfOk, OnOk, string_bytes};
ghost use Rattle.std.specs.List.{flat_map};
ghost use Rattle.service.specs.AnswerLines.{row_line};

use crate::bgpdump::write_entry;
use crate::form::Form;
use crate::human;
use crate::json::write_object;
use route_meaning::Row;
use route_model::Moment;
use service::write_row;
use std::alloc::{AllocError, Global};

/// How the rows of a moment are written.
#[derive(Debug, Drop)]
pub(crate) struct RowWriter {
    form: Form,
    moment: Moment,
    /// The moment as a date.
    date: String,
}

impl RowWriter {
    pub(crate) fn new(alloc: Global, form: Form, moment: Moment) -> Result<RowWriter, AllocError>
        ensures form { IfOk result (λ writer. writer.form ≡ form) }
    {
        let mut date = String::new(alloc);
        human::write_date(&mut date, moment)?;
        Ok(RowWriter { form, moment, date })
    }

    /// Writes the line of a row at the end of `out`. After an error nothing is said of `out`.
    pub(crate) fn write(
        &self,
        alloc: Global,
        out: &mut String,
        row: &Row,
    ) -> Result<(), AllocError> {
        match self.form {
            Form::Lines => write_row(out, row),
            Form::Human => human::write_row(alloc, out, row),
            Form::Bgpdump => write_entry(alloc, out, self.moment, row),
            Form::Json => write_object(alloc, out, self.moment, self.date.as_str(), row),
        }
    }

    /// Writes the lines of the rows.
    pub(crate) fn write_all(
        &self,
        alloc: Global,
        out: &mut String,
        rows: &[Row],
    ) -> Result<(), AllocError>
        ensures lines { self.now.form ≡ Form.Lines → OnOk result (string_bytes out.new ≡ string_bytes out.old ++ flat_map row_line rows.now) }
    {
        if self.form == Form::Lines {
            return write_lines(out, rows);
        }
        for row in rows {
            self.write(alloc, out, row)?;
        }
        Ok(())
    }
}

/// Writes the rows as an answer has them.
fn write_lines(out: &mut String, rows: &[Row]) -> Result<(), AllocError>
    ensures lines { OnOk result (string_bytes out.new ≡ string_bytes out.old ++ flat_map row_line rows.now) }
{
    for row in rows {
        write_row(out, row)?;
    }
    Ok(())
}
