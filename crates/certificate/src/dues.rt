// What a text needs next, as a value: one line after the other takes from it.
ghost use Rattle.std.specs.Prelude.{◌≡◌, ◌≤◌, ◌↔◌, [], ◌∷◌, IfErr, IfOk, IsErrOf, IsTrue, OnOk, length};
ghost use Rattle.cert_lines.specs.Shapes.{line_shape};
ghost use Rattle.certificate.specs.declared.dues.Misfit.TheVariants.{Deep, Unwanted};
ghost use Rattle.certificate.specs.Dues.{IsTooDeep, IsUnwanted, TakesAll};
ghost use Rattle.certificate.specs.Faults.{body_dues};
ghost use Rattle.certificate.specs.Stacks.{EndsTree, HasDeepTree, SplitsTree, dues_in};

use crate::CertLine;
use cert_lines::MAX_BRANCHES;
use std::alloc::{AllocError, AllocFailed, Global};
use thiserror::Error;

/// What the lines after the first three need next: parts, then lists of parts, then groups, then cuts, then trees, and
/// then the end. The reader of a text that comes in pieces holds it and gives it one line after the other.
#[derive(Debug, Drop)]
pub struct Dues {
    parts: u32,
    lists: u32,
    groups: u32,
    cuts: u32,
    // Branches above each tree; the next tree is the last one.
    trees: Vec<u32>,
    end: bool,
}

/// Why a line isn't one that is needed.
#[derive(Clone, Copy, Debug, PartialEq, Eq, Error)]
pub enum Misfit {
    /// Another line is needed, or none.
    #[error("another line is needed, or none")]
    Unwanted,
    /// A branch has `MAX_BRANCHES` branches above it.
    #[error("too many branches on a path")]
    Deep,
    /// Memory ran out.
    #[error("out of memory")]
    Memory,
}

impl From<AllocError> for Misfit {
    ghost use Rattle.std.specs.Prelude.{◌≡◌};
    ghost use Rattle.certificate.specs.declared.dues.Misfit.TheVariants.{Memory};

    ghost from_gives = { λ _ e. e ≡ Memory };

    fn from(_: AllocError) -> Misfit {
        Misfit::Memory
    }
}

impl<T: Drop> From<AllocFailed<T>> for Misfit {
    ghost use Rattle.std.specs.Prelude.{◌≡◌};
    ghost use Rattle.certificate.specs.declared.dues.Misfit.TheVariants.{Memory};

    ghost from_gives = { λ _ e. e ≡ Memory };

    fn from(_: AllocFailed<T>) -> Misfit {
        Misfit::Memory
    }
}

impl Dues {
    /// What is needed after the first three lines of a text with so many cuts: the cuts, a tree and the end.
    pub fn new(alloc: Global, cuts: u32) -> Result<Dues, AllocError>
        ensures { IfOk result (λ dues. dues_in dues ≡ body_dues cuts) }
    {
        let mut trees = Vec::new(alloc);
        trees.push(0)?;
        Ok(Dues {
            parts: 0,
            lists: 0,
            groups: 0,
            cuts,
            trees,
            end: true,
        })
    }

    /// Takes the next line: what it needs itself comes first then. The line is another one than is needed, or a
    /// branch too deep, exactly where this is the answer. Memory is taken for a branch alone. After an error just what was
    /// needed before is still needed (`kept`).
    pub fn take(&mut self, line: &CertLine) -> Result<(), Misfit>
        ensures taken { OnOk result (TakesAll (dues_in self.old) (line_shape line.now ∷ [])
            (dues_in self.new)) }
        ensures unwanted { IsErrOf result Unwanted
            → IsUnwanted (dues_in self.old) (line_shape line.now) }
        ensures deep { IsErrOf result Deep → IsTooDeep (dues_in self.old) (line_shape line.now) }
        ensures kept { IfErr result (λ _. dues_in self.new ≡ dues_in self.old) }
    {
        if self.parts > 0 {
            return self.take_part(line);
        }
        if self.lists > 0 {
            return self.take_list(line);
        }
        if self.groups > 0 {
            return self.take_group(line);
        }
        if self.cuts > 0 {
            return self.take_cut(line);
        }
        if self.trees.is_empty() {
            return self.take_end(line);
        }
        self.take_tree(line)
    }

    /// Whether nothing is needed any more.
    pub fn are_met(&self) -> bool
        ensures { IsTrue result ↔ (dues_in self.now ≡ []) }
    {
        if self.parts > 0 {
            return false;
        }
        if self.lists > 0 {
            return false;
        }
        if self.groups > 0 {
            return false;
        }
        if self.cuts > 0 {
            return false;
        }
        if self.trees.len() > 0 {
            return false;
        }
        !self.end
    }

    // A line where a part is needed.
    fn take_part(&mut self, line: &CertLine) -> Result<(), Misfit>
        requires some { 1 ≤ self.old.parts }
        ensures taken { OnOk result (TakesAll (dues_in self.old) (line_shape line.now ∷ [])
            (dues_in self.new)) }
        ensures unwanted { IsErrOf result Unwanted
            → IsUnwanted (dues_in self.old) (line_shape line.now) }
        ensures deep { IsErrOf result Deep → ⊥ }
        ensures kept { IfErr result (λ _. dues_in self.new ≡ dues_in self.old) }
    {
        match line {
            CertLine::Part(_) => {
                self.parts -= 1;
                Ok(())
            }
            _ => Err(Misfit::Unwanted),
        }
    }

    // A line where a list is needed, and no part.
    fn take_list(&mut self, line: &CertLine) -> Result<(), Misfit>
        requires parts { self.old.parts ≡ 0 }
        requires some { 1 ≤ self.old.lists }
        ensures taken { OnOk result (TakesAll (dues_in self.old) (line_shape line.now ∷ [])
            (dues_in self.new)) }
        ensures unwanted { IsErrOf result Unwanted
            → IsUnwanted (dues_in self.old) (line_shape line.now) }
        ensures deep { IsErrOf result Deep → ⊥ }
        ensures kept { IfErr result (λ _. dues_in self.new ≡ dues_in self.old) }
    {
        match line {
            CertLine::List(_) => {
                self.lists -= 1;
                Ok(())
            }
            _ => Err(Misfit::Unwanted),
        }
    }

    // A line where a group is needed, and neither a part nor a list.
    fn take_group(&mut self, line: &CertLine) -> Result<(), Misfit>
        requires parts { self.old.parts ≡ 0 }
        requires lists { self.old.lists ≡ 0 }
        requires some { 1 ≤ self.old.groups }
        ensures taken { OnOk result (TakesAll (dues_in self.old) (line_shape line.now ∷ [])
            (dues_in self.new)) }
        ensures unwanted { IsErrOf result Unwanted
            → IsUnwanted (dues_in self.old) (line_shape line.now) }
        ensures deep { IsErrOf result Deep → ⊥ }
        ensures kept { IfErr result (λ _. dues_in self.new ≡ dues_in self.old) }
    {
        match line {
            CertLine::Group(_) => {
                self.groups -= 1;
                Ok(())
            }
            _ => Err(Misfit::Unwanted),
        }
    }

    // A line where a cut is needed, and nothing of a leaf.
    fn take_cut(&mut self, line: &CertLine) -> Result<(), Misfit>
        requires parts { self.old.parts ≡ 0 }
        requires lists { self.old.lists ≡ 0 }
        requires groups { self.old.groups ≡ 0 }
        requires some { 1 ≤ self.old.cuts }
        ensures taken { OnOk result (TakesAll (dues_in self.old) (line_shape line.now ∷ [])
            (dues_in self.new)) }
        ensures unwanted { IsErrOf result Unwanted
            → IsUnwanted (dues_in self.old) (line_shape line.now) }
        ensures deep { IsErrOf result Deep → ⊥ }
        ensures kept { IfErr result (λ _. dues_in self.new ≡ dues_in self.old) }
    {
        match line {
            CertLine::Cut(_) => {
                self.cuts -= 1;
                Ok(())
            }
            CertLine::Round { parts, .. } => {
                self.cuts -= 1;
                self.parts = *parts;
                Ok(())
            }
            _ => Err(Misfit::Unwanted),
        }
    }

    // A line where a tree is needed, the last one of the trees.
    fn take_tree(&mut self, line: &CertLine) -> Result<(), Misfit>
        requires parts { self.old.parts ≡ 0 }
        requires lists { self.old.lists ≡ 0 }
        requires groups { self.old.groups ≡ 0 }
        requires cuts { self.old.cuts ≡ 0 }
        requires some { 1 ≤ length self.old.trees.items }
        ensures taken { OnOk result (TakesAll (dues_in self.old) (line_shape line.now ∷ [])
            (dues_in self.new)) }
        ensures unwanted { IsErrOf result Unwanted
            → IsUnwanted (dues_in self.old) (line_shape line.now) }
        ensures deep { IsErrOf result Deep → IsTooDeep (dues_in self.old) (line_shape line.now) }
        ensures kept { IfErr result (λ _. dues_in self.new ≡ dues_in self.old) }
    {
        match line {
            CertLine::Branch { .. } => self.split_last(),
            CertLine::Linear { parts, .. } => {
                self.end_last();
                self.parts = *parts;
                Ok(())
            }
            CertLine::Farkas { parts } => {
                self.end_last();
                self.parts = *parts;
                Ok(())
            }
            CertLine::Point => {
                self.end_last();
                Ok(())
            }
            CertLine::Reduced {
                parts,
                lists,
                groups,
                ..
            } => {
                self.end_last();
                self.parts = *parts;
                self.lists = *lists;
                self.groups = *groups;
                Ok(())
            }
            _ => Err(Misfit::Unwanted),
        }
    }

    // The last tree begins with a branch: both of its sides are needed in its place.
    fn split_last(&mut self) -> Result<(), Misfit>
        requires parts { self.old.parts ≡ 0 }
        requires lists { self.old.lists ≡ 0 }
        requires groups { self.old.groups ≡ 0 }
        requires cuts { self.old.cuts ≡ 0 }
        requires some { 1 ≤ length self.old.trees.items }
        ensures split { OnOk result (SplitsTree self.old self.new) }
        ensures unwanted { IsErrOf result Unwanted → ⊥ }
        ensures deep { IsErrOf result Deep → HasDeepTree self.old }
        ensures kept { IfErr result (λ _. dues_in self.new ≡ dues_in self.old) }
    {
        let last = self.trees.len() - 1;
        let above = self.trees[last];
        if above >= MAX_BRANCHES {
            return Err(Misfit::Deep);
        }
        // The room for one more tree is taken first, so that a want of memory changes nothing.
        self.trees.push(above + 1)?;
        self.trees[last] = above + 1;
        Ok(())
    }

    // The last tree is a leaf.
    fn end_last(&mut self)
        requires parts { self.old.parts ≡ 0 }
        requires lists { self.old.lists ≡ 0 }
        requires groups { self.old.groups ≡ 0 }
        requires cuts { self.old.cuts ≡ 0 }
        requires some { 1 ≤ length self.old.trees.items }
        ensures ends { EndsTree self.old self.new }
        ensures parts { self.new.parts ≡ 0 }
        ensures lists { self.new.lists ≡ 0 }
        ensures groups { self.new.groups ≡ 0 }
        ensures cuts { self.new.cuts ≡ 0 }
    {
        let _last = self.trees.pop();
    }

    // A line where the end is needed, or nothing.
    fn take_end(&mut self, line: &CertLine) -> Result<(), Misfit>
        requires parts { self.old.parts ≡ 0 }
        requires lists { self.old.lists ≡ 0 }
        requires groups { self.old.groups ≡ 0 }
        requires cuts { self.old.cuts ≡ 0 }
        requires trees { self.old.trees.items ≡ [] }
        ensures taken { OnOk result (TakesAll (dues_in self.old) (line_shape line.now ∷ [])
            (dues_in self.new)) }
        ensures unwanted { IsErrOf result Unwanted
            → IsUnwanted (dues_in self.old) (line_shape line.now) }
        ensures deep { IsErrOf result Deep → ⊥ }
        ensures kept { IfErr result (λ _. dues_in self.new ≡ dues_in self.old) }
    {
        if !self.end {
            return Err(Misfit::Unwanted);
        }
        match line {
            CertLine::End => {
                self.end = false;
                Ok(())
            }
            _ => Err(Misfit::Unwanted),
        }
    }
}
