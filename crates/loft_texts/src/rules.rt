//! The rules of a list.

use crate::fault::{Fault, RuleFault};
use crate::text::wide;
use csv::{ByteRecord, ByteRecordsIntoIter, ReaderBuilder};
use std::alloc::{AllocError, Global};

/// How bad it is that a rule matches.
#[derive(Clone, Copy)]
pub enum Severity {
    /// The check fails.
    Error,
    /// It is told, and no more.
    Warning,
}

/// A rule: what is looked for, and what is said of it.
#[derive(Drop)]
pub struct Rule {
    pub name: String,
    pub pattern: String,
    pub message: String,
    pub severity: Severity,
}

/// The fields of a record that has a rule.
#[derive(Clone, Copy)]
struct Fields<'r> {
    name: &'r str,
    pattern: &'r str,
    message: &'r str,
    severity: Severity,
}

/// A field as text, empty where there is none; the fault where it is no text.
fn text_field<'r>(record: &'r ByteRecord, field: usize, number: u64) -> Result<&'r str, Fault> {
    let bytes = record.get(field).unwrap_or(b"");
    match std::str::from_utf8(bytes) {
        Ok(text) => Ok(text),
        Err(_) => Err(Fault::Rule(number, RuleFault::NotText)),
    }
}

/// The severity that a field names. An empty one is an error.
fn read_severity(field: &str, number: u64) -> Result<Severity, Fault> {
    match field {
        "" | "error" => Ok(Severity::Error),
        "warning" => Ok(Severity::Warning),
        _ => Err(Fault::Rule(number, RuleFault::Severity)),
    }
}

/// The fields of a record: name, pattern, message, severity.
fn fields_of<'r>(record: &'r ByteRecord, number: u64) -> Result<Fields<'r>, Fault> {
    let name = text_field(record, 0, number)?;
    let pattern = text_field(record, 1, number)?;
    if name.is_empty() || pattern.is_empty() {
        return Err(Fault::Rule(number, RuleFault::Incomplete));
    }
    let message = text_field(record, 2, number)?;
    let severity = read_severity(text_field(record, 3, number)?, number)?;
    Ok(Fields {
        name,
        pattern,
        message,
        severity,
    })
}

/// The rule that has these fields.
fn rule_of(alloc: Global, fields: Fields<'_>) -> Result<Rule, AllocError> {
    Ok(Rule {
        name: String::from_str(alloc, fields.name)?,
        pattern: String::from_str(alloc, fields.pattern)?,
        message: String::from_str(alloc, fields.message)?,
        severity: fields.severity,
    })
}

/// Whether a record names the columns.
fn is_header(record: &ByteRecord) -> bool {
    record.get(0) == Some(b"name") && record.get(1) == Some(b"pattern")
}

/// The number of the rule after these.
fn number_after(rules: &[Rule]) -> u64 {
    wide(rules.len()).saturating_add(1)
}

/// Adds the rule of a record to those before it. A record before the first rule may name the columns.
fn add_rule(alloc: Global, record: &ByteRecord, rules: &mut Vec<Rule>) -> Result<(), Fault> {
    if !rules.is_empty() || !is_header(record) {
        let fields = fields_of(record, number_after(rules))?;
        rules.push(rule_of(alloc, fields)?)?;
    }
    Ok(())
}

/// Adds the rule of a record to those before it, if it could be read.
fn add_record(
    alloc: Global,
    record: Result<ByteRecord, csv::Error>,
    rules: &mut Vec<Rule>,
) -> Result<(), Fault> {
    match record {
        Ok(record) => add_rule(alloc, &record, rules),
        Err(_) => Err(Fault::Rule(number_after(rules), RuleFault::Unreadable)),
    }
}

/// The rules of records.
fn rules_of(alloc: Global, records: &mut ByteRecordsIntoIter<&[u8]>) -> Result<Vec<Rule>, Fault> {
    let mut rules = Vec::new(alloc);
    for record in records {
        add_record(alloc, record, &mut rules)?;
    }
    Ok(rules)
}

/// The rules of a list. A first record with `name` and `pattern` in it names the columns.
pub fn read_rules(alloc: Global, text: &[u8]) -> Result<Vec<Rule>, Fault> {
    let reader = ReaderBuilder::new()
        .has_headers(false)
        .flexible(true)
        .from_reader(alloc, text);
    let mut records = reader.into_byte_records();
    rules_of(alloc, &mut records)
}
