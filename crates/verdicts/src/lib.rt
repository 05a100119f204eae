//! What an audit of two node tables answers: that they are lawful, or the first rule that they break and what is the first at fault; and why
//! it refuses. And their text.

#![tactic(auto)]

ghost use Rattle.std.specs.Prelude.{◌≡◌, Some};
ghost use Rattle.verdicts.specs.Refusals.{refusal_of};
ghost use Rattle.verdicts.specs.Text.{fault_text, reason_text, rule_text, verdict_text};
ghost use Rattle.verdicts.specs.Verdicts.{at_fault, broken_rule, fault_of, rule_of};

use entities::Block;
use faults::{Entity, Layer};
use std::error::Error;
use std::fmt;

/// The rules that lawful tables keep, in the order in which they are asked.
#[derive(Clone, Copy, PartialEq, Eq, Debug)]
pub enum Rule {
    /// Every link, end, instruction and block name held leads into its table.
    InTable,
    /// The walk by next links from the first block meets no block twice and ends at the last, and previous links mirror it.
    BlockChain,
    /// The same of the instructions of each such block, and each names that block.
    InstChains,
    /// A node that was not met holds no link, no instruction and no block name.
    UnmetBare,
    /// The numbers rise strictly along each block.
    RisingNumbers,
}

/// A broken rule, and what is the first at fault.
#[derive(Clone, Copy, PartialEq, Eq, Debug)]
pub enum Breach {
    /// An end is at fault where nothing is named.
    InTable(Option<Entity>),
    BlockChain,
    InstChains(Block),
    UnmetBare(Entity),
    RisingNumbers(Block),
}

/// What an audit says of two tables.
#[derive(Clone, Copy, PartialEq, Eq, Debug)]
pub enum Verdict {
    Lawful,
    Broken(Breach),
}

/// Why an audit is refused.
#[derive(Clone, Copy, PartialEq, Eq, Debug)]
pub enum AuditFault {
    /// A table holds more nodes than a layout keeps.
    TooManyNodes,
}

impl Breach {
    /// The rule that is broken.
    pub fn rule(self) -> Rule
        ensures { result ≡ rule_of self }
    {
        match self {
            Breach::InTable(_) => Rule::InTable,
            Breach::BlockChain => Rule::BlockChain,
            Breach::InstChains(_) => Rule::InstChains,
            Breach::UnmetBare(_) => Rule::UnmetBare,
            Breach::RisingNumbers(_) => Rule::RisingNumbers,
        }
    }

    /// What is at fault, where something is named.
    pub fn entity(self) -> Option<Entity>
        ensures { result ≡ fault_of self }
    {
        match self {
            Breach::InTable(entity) => entity,
            Breach::BlockChain => None,
            Breach::InstChains(block) | Breach::RisingNumbers(block) => Some(Entity::Block(block)),
            Breach::UnmetBare(entity) => Some(entity),
        }
    }
}

impl Verdict {
    /// The rule that is broken; none where the tables are lawful.
    pub fn rule(self) -> Option<Rule>
        ensures { result ≡ broken_rule self }
    {
        match self {
            Verdict::Lawful => None,
            Verdict::Broken(breach) => Some(breach.rule()),
        }
    }

    /// What is at fault, where something is named.
    pub fn entity(self) -> Option<Entity>
        ensures { result ≡ at_fault self }
    {
        match self {
            Verdict::Lawful => None,
            Verdict::Broken(breach) => breach.entity(),
        }
    }
}

impl AuditFault {
    /// The number of the question that was answered no: what the user of a handset is told, and looks up.
    pub fn number(self) -> u32
        ensures { result ≡ (refusal_of self).number }
    {
        match self {
            AuditFault::TooManyNodes => 1,
        }
    }

    /// Who asked.
    pub fn layer(self) -> Layer
        ensures { result ≡ (refusal_of self).layer }
    {
        Layer::Audit
    }

    /// The block or instruction at fault: none, since the tables as they are were asked.
    pub fn entity(self) -> Option<Entity>
        ensures { result ≡ (refusal_of self).entity }
    {
        match self {
            AuditFault::TooManyNodes => None,
        }
    }

    // What is wrong.
    fn reason(self) -> &'static str
        ensures { result.now ≡ reason_text self }
    {
        match self {
            AuditFault::TooManyNodes => "too many nodes",
        }
    }
}

impl fmt::Display for Rule {
    ghost output = { λ r. Some (rule_text r) };

    fn fmt<W: fmt::Write>(&self, f: &mut fmt::Formatter<W>) -> fmt::Result {
        match self {
            Rule::InTable => f.write_str("in-table"),
            Rule::BlockChain => f.write_str("block chain"),
            Rule::InstChains => f.write_str("instruction chains"),
            Rule::UnmetBare => f.write_str("unmet nodes are bare"),
            Rule::RisingNumbers => f.write_str("rising numbers"),
        }
    }
}

impl fmt::Display for Verdict {
    ghost output = { λ v. Some (verdict_text v) };

    fn fmt<W: fmt::Write>(&self, f: &mut fmt::Formatter<W>) -> fmt::Result {
        let Verdict::Broken(breach) = self else {
            return f.write_str("lawful");
        };
        match breach.entity() {
            Some(entity) => write!(f, "{}: {}", breach.rule(), entity),
            None => write!(f, "{}: -", breach.rule()),
        }
    }
}

impl fmt::Display for AuditFault {
    ghost output = { λ f. Some (fault_text f) };

    fn fmt<W: fmt::Write>(&self, f: &mut fmt::Formatter<W>) -> fmt::Result {
        write!(
            f,
            "refused with {} by the {}: {}",
            self.number(),
            self.layer(),
            self.reason()
        )
    }
}

impl Error for AuditFault {}
