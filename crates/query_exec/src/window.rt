//! OFFSET and LIMIT.

ghost use Rattle.std.specs.Prelude.{◌≡◌, ◌∷◌, List, if◌then◌else◌};
ghost use Rattle.model.specs.declared.record.Record.{Record};

/// OFFSET and LIMIT, as far as they are still to be met.
#[derive(Clone, Copy, Debug)]
pub struct Window {
    /// How many rows are left out first.
    pub skip: usize,
    /// How many rows are taken at most.
    pub most: Option<usize>,
}

impl Window {
    ghost use Rattle.query_exec.specs.Windows.{IsWanted, in_window, is_over};

    /// Whether no row is taken any more.
    pub fn is_over(&self) -> bool
        ensures { result ≡ is_over self.now }
    {
        match self.most {
            Some(most) => most == 0,
            None => false,
        }
    }

    /// How many rows are left out or taken, if there is a LIMIT and so many can be counted.
    pub(crate) fn wanted(&self) -> Option<usize>
        ensures { IsWanted self.now.skip self.now.most result }
    {
        match self.most {
            Some(most) => self.skip.checked_add(most),
            None => None,
        }
    }

    /// Whether the next row is taken. From then on the window is that of the rows behind it.
    pub fn admits(&mut self) -> bool
        ensures { (row : Record) (rest : List Record)
            → in_window self.old (row ∷ rest) ≡ (if result then row ∷ in_window self.new rest else in_window self.new rest) }
    {
        if self.skip > 0 {
            self.skip -= 1;
            return false;
        }
        match self.most {
            None => true,
            Some(most) => {
                if most > 0 {
                    self.most = Some(most - 1);
                    true
                } else {
                    false
                }
            }
        }
    }
}
