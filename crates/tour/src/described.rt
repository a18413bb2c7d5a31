//! The site as described so far.

use crate::line::Expression;
use anyhow::anyhow;
use host::{Evaluated, Host, View};
use resolve::{PathRow, Resolved, Resolver, TableResolver};
use rows::{Access, Place, Source, Texts, VarRow};
use site::{Operand, SiteExpr, SiteHost, SiteValue};
use std::alloc::Global;

/// The names of variables stand in the site's text, and those of expressions in the rule's, as where a rule meets a site
/// that it was not written for.
#[derive(Drop)]
pub struct Described {
    rule: String,
    site: String,
    names: Vec<VarRow<SiteValue>>,
    expressions: Vec<SiteExpr>,
    modules: Vec<PathRow>,
}

/// Writes a name behind a text.
fn put_name(text: &mut String, source: Source, name: &str) -> anyhow::Result<Place> {
    let (Ok(offset), Ok(length)) = (u32::try_from(text.len()), u32::try_from(name.len())) else {
        return Err(anyhow!("the names are too long"));
    };
    text.push_str(name)?;
    Ok(Place {
        source,
        offset,
        length,
    })
}

impl Described {
    pub fn new(heap: Global) -> Described {
        Described {
            rule: String::new(heap),
            site: String::new(heap),
            names: Vec::new(heap),
            expressions: Vec::new(heap),
            modules: Vec::new(heap),
        }
    }

    pub fn add_name(&mut self, name: &str, access: Access, value: SiteValue) -> anyhow::Result<()> {
        let place = put_name(&mut self.site, Source::Site, name)?;
        self.names.push(VarRow::new(place, access, value))?;
        Ok(())
    }

    pub fn add_module(&mut self, row: PathRow) -> anyhow::Result<()> {
        self.modules.push(row)?;
        Ok(())
    }

    /// The operand that an earlier expression is. One of two operands is none, since operands do not nest.
    fn operand(&self, code: usize) -> Option<Operand> {
        match self.expressions.get(code) {
            Some(SiteExpr::Operand(operand)) => Some(*operand),
            _ => None,
        }
    }

    /// What an expression as written stands for, with its name put behind the rule's text; none where it names operands that there are not.
    fn compile(&mut self, expression: Expression<'_>) -> anyhow::Result<Option<SiteExpr>> {
        Ok(match expression {
            Expression::Value(value) => Some(SiteExpr::Operand(Operand::Constant(value))),
            Expression::Variable(name) => {
                let place = put_name(&mut self.rule, Source::Rule, name)?;
                Some(SiteExpr::Operand(Operand::Variable(place)))
            }
            Expression::Binary(left, operator, right) => self
                .operand(left)
                .zip(self.operand(right))
                .map(|(left, right)| SiteExpr::Binary(operator, left, right)),
        })
    }

    /// Adds an expression, and answers its code.
    pub fn add_expression(&mut self, expression: Expression<'_>) -> anyhow::Result<Option<usize>> {
        let Some(compiled) = self.compile(expression)? else {
            return Ok(None);
        };
        let code = self.expressions.len();
        self.expressions.push(compiled)?;
        Ok(Some(code))
    }

    /// What the host answers to a code, with the variables so far.
    pub fn evaluate(&mut self, code: u16) -> Evaluated<SiteValue> {
        let used = self.names.len();
        let view = View {
            texts: Texts {
                rule: self.rule.as_bytes(),
                site: self.site.as_bytes(),
            },
            mark: true,
            limit: used,
        };
        let mut host = SiteHost::new(self.expressions.as_slice());
        let (_, answer) = host.evaluate(code, self.names.as_mut_slice(), used, view);
        answer
    }

    pub fn resolve(&self, path: u32) -> Resolved {
        let resolver = TableResolver {
            rows: self.modules.as_slice(),
        };
        resolver.resolve(path)
    }
}
