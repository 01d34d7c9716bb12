//! A configuration while its lines are read.
//!
//! # Lines without memory
//!
//! The lines are judged without memory: services are in a list of 32 places, and their files' names
//! are parts of the text. Only `into_config` takes memory, after all lines.

ghost use Rattle.std.specs.Prelude.{◌≡◌, ◌≢◌, ◌⊎◌, ◌≤◌, [], None, IfOk, IfErr, OnOk, All, false, length};
ghost use Rattle.mx_text.specs.declared.error.BootError.TheVariants.{BadLine, NoMemory};
ghost use Rattle.mx_boot.specs.Above.{ItemsAbove, nothing_above};
ghost use Rattle.mx_boot.specs.Items.{IsItemWithin, IsServiceWithin};
ghost use Rattle.mx_boot.specs.Lines.{has_service_name, is_twice, is_service_too_many, item_refusal, items_with, AreLinesOf, IsLineOf, IsItemTaken, IsItemWrong, IsConfigOf};

use crate::item::ConfigItem;
use crate::items::{before_comment, item_at};
use crate::service::ServiceWords;
use arrayvec::ArrayVec;
use mx_machine::{Config, FileName, ServiceLine, ServiceLines};
use mx_proc::{Rules, Terms};
use mx_text::{BootError, Name, next_field};
use std::alloc::{AllocError, Global};
use std::marker::Model;

/// What the lines of a configuration have set so far. It takes no memory.
#[derive(Drop)]
pub struct Draft<'a> {
    pub cpus: Option<u8>,
    pub log: Option<u32>,
    pub others: Option<u8>,
    pub rules: Option<Rules>,
    pub services: ArrayVec<ServiceWords<'a>, 32>,
}

impl<'a> Model for Draft<'a> {
    ghost use Rattle.mx_boot.specs.Above.{ItemsAbove, IsAbove};

    ghost Value = { ItemsAbove };

    ghost view = { λ d. record {
      cpus = d.cpus;
      log = d.log;
      others = d.others;
      rules = d.rules;
      services = d.services.items;
    } };

    ghost invariant = { λ d.
        IsAbove (record {
          cpus = d.cpus;
          log = d.log;
          others = d.others;
          rules = d.rules;
          services = d.services.items;
        }) };
}

/// The line of a service.
fn line_of(alloc: Global, words: &ServiceWords<'_>) -> Result<ServiceLine, AllocError>
    requires { IsServiceWithin words.now }
    ensures { IfOk result (IsLineOf words.now) }
{
    let file = String::from_str(alloc, words.file)?;
    Ok(ServiceLine {
        name: words.name,
        file: FileName::from_string(file),
        terms: Terms {
            masks: words.terms.masks,
            level: words.terms.level,
            best: words.terms.best,
            quantum: words.terms.quantum,
            restarts: words.terms.restarts,
        },
    })
}

/// The lines of services, in order.
fn lines_of(alloc: Global, services: &[ServiceWords<'_>]) -> Result<Vec<ServiceLine>, AllocError>
    requires { All IsServiceWithin services.now }
    ensures lines { IfOk result (λ lines. AreLinesOf services.now lines.items) }
    ensures count { IfOk result (λ lines. length lines.items ≡ length services.now) }
{
    let mut lines = Vec::new(alloc);
    for words in services {
        lines.push(line_of(alloc, words)?)?;
    }
    Ok(lines)
}

impl<'a> Draft<'a> {
    /// A configuration's draft before the first line.
    pub fn new() -> Draft<'a>
        ensures { result ≡ nothing_above }
    {
        Draft {
            cpus: None,
            log: None,
            others: None,
            rules: None,
            services: ArrayVec::new(),
        }
    }

    /// Whether a service has this name.
    fn is_named(&self, name: Name) -> bool
        ensures { result ≡ has_service_name self.now.services name }
    {
        self.services
            .as_slice()
            .iter()
            .any(|words| words.name == name)
    }

    fn is_twice(&self, item: &ConfigItem<'_>) -> bool
        ensures { result ≡ is_twice self.now item.now }
    {
        match item {
            ConfigItem::Cpus(_) => self.cpus.is_some(),
            ConfigItem::Log(_) => self.log.is_some(),
            ConfigItem::Others(_) => self.others.is_some(),
            ConfigItem::ByRules(_) => self.rules.is_some(),
            ConfigItem::Service(service) => self.is_named(service.name),
        }
    }

    fn is_over(&self, item: &ConfigItem<'_>) -> bool
        ensures { result ≡ is_service_too_many self.now item.now }
    {
        match item {
            ConfigItem::Service(_) => self.services.len() >= 32,
            _ => false,
        }
    }

    /// Why an item may not come below these lines, in the line of this number.
    fn reason_of(&self, item: &ConfigItem<'_>, number: usize) -> Option<BootError>
        ensures { result ≡ item_refusal number self.now item.now }
    {
        if self.is_twice(item) {
            Some(BootError::TwiceNamed(number))
        } else if self.is_over(item) {
            Some(BootError::TooMany(number))
        } else {
            None
        }
    }

    /// Takes an item in.
    fn go_after(&mut self, item: ConfigItem<'a>)
        requires within { IsItemWithin item }
        requires room { is_service_too_many self.old item ≡ false }
        ensures { self.new ≡ items_with self.old item.entry }
    {
        match item {
            ConfigItem::Cpus(number) => self.cpus = Some(number),
            ConfigItem::Log(number) => self.log = Some(number),
            ConfigItem::Others(number) => self.others = Some(number),
            ConfigItem::ByRules(rules) => self.rules = Some(rules),
            ConfigItem::Service(words) => self.services.push(words),
        }
    }

    /// Takes a line in, or reports what is wrong with it.
    pub fn take_line(&mut self, line: &'a [u8], number: usize) -> Result<(), BootError>
        ensures taken { IfOk result (λ _. IsItemTaken self.old number line.now self.new) }
        ensures wrong { IfErr result (IsItemWrong self.old number line.now) }
    {
        let (word, rest) = match next_field(before_comment(line)) {
            Some(parts) => parts,
            None => return Ok(()),
        };
        let item = match item_at(word, rest) {
            Some(item) => item,
            None => return Err(BootError::BadLine(number)),
        };
        match self.reason_of(&item, number) {
            Some(error) => return Err(error),
            None => {}
        }
        self.go_after(item);
        Ok(())
    }

    /// The configuration that the lines set; or, if they have no service, an error at the last
    /// line. Takes memory for what it answers.
    pub fn into_config(self, alloc: Global, last: usize) -> Result<Config, BootError>
        ensures config { IfOk result (IsConfigOf self.entry) }
        ensures some { OnOk result (self.entry.services ≢ []) }
        ensures none { IfErr result (λ e. ((self.entry.services ≡ []) × (e ≡ BadLine last))
            ⊎ ((self.entry.services ≢ []) × (e ≡ NoMemory))) }
    {
        if self.services.is_empty() {
            return Err(BootError::BadLine(last));
        }
        let lines = lines_of(alloc, self.services.as_slice())?;
        Ok(Config {
            cpus: self.cpus.unwrap_or(1),
            others: self.others.unwrap_or(1),
            log: self.log.unwrap_or(65_536),
            rules: self.rules.unwrap_or(Rules::Strict),
            lines: ServiceLines::from_vec(lines),
        })
    }
}
