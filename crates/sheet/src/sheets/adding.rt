// Making a sheet, and adding to it.
ghost use Rattle.std.specs.Prelude.{◌≡◌, IfOk};
ghost use Rattle.sheet.specs.Conditions.{server};
ghost use Rattle.sheet.specs.Contents as contents;
ghost use Rattle.sheet.specs.Formulas.{formula_of};
ghost use Rattle.sheet.specs.Refused as refused;

use super::Sheet;
use crate::answers::Refusal;
use crate::fields::Fields;
use crate::formulas::Formula;
use crate::limits::SERVER;
use crate::refused;
use std::alloc::{AllocError, Global};

impl Sheet {
    // An empty sheet. Only this call can want memory.
    pub fn new(heap: Global) -> Result<Sheet, AllocError>
        ensures { IfOk result (λ s. contents.of s ≡ contents.empty) }
    {
        let formulas = Vec::with_capacity(heap, SERVER.formulas)?;
        let reaches = Vec::with_capacity(heap, SERVER.formulas)?;
        let rules = Vec::with_capacity(heap, SERVER.rules)?;
        Ok(Sheet {
            formulas,
            reaches,
            rules,
            cells: 0,
        })
    }

    // The next formula that fields are, or why they are not taken.
    fn next_formula(&self, f: Fields) -> Result<Formula, Refusal>
        ensures { result ≡ refused.unless (refused.refusal server (contents.of self.now) f) (formula_of f) }
    {
        let n = self.formulas.len();
        if n >= SERVER.formulas {
            return Err(Refusal::Full);
        }
        let formula = refused::formula(n, f)?;
        if self.cells + formula.cells() > SERVER.cells {
            return Err(Refusal::Cells);
        }
        Ok(formula)
    }

    // Takes the fields as the next formula, or tells why not.
    pub fn add(&mut self, f: Fields) -> Result<(), Refusal>
        ensures { contents.Added (refused.refusal server (contents.of self.old) f) result (contents.of self.old) (contents.with_formula (contents.of self.old) (formula_of f)) (contents.of self.new) }
    {
        let formula = self.next_formula(f)?;
        let reach = self.reach_of(formula);
        self.reaches.push_reserved(reach);
        self.formulas.push_reserved(formula);
        self.cells += formula.cells();
        Ok(())
    }

    // Takes the number of a formula as the next rule, or tells why not.
    #[tactic(auto, using(crate::proofs::Grows::told_no_rule, crate::proofs::Accepts::with_rule_lem))]
    pub fn add_rule(&mut self, n: u8) -> Result<(), Refusal>
        ensures { contents.Added (refused.rule_refusal server (contents.of self.old) n) result (contents.of self.old) (contents.with_rule (contents.of self.old) n) (contents.of self.new) }
    {
        if self.rules.len() >= SERVER.rules {
            return Err(Refusal::Full);
        }
        if usize::from(n) >= self.formulas.len() {
            return Err(Refusal::Forward);
        }
        self.rules.push_reserved(n);
        Ok(())
    }
}
