//! What is taken from containers by those that a pass has seen.

ghost use Rattle.std.specs.Prelude.{◌≡◌, ◌<◌, ◌&&◌, ◌||◌, ◌==◌, ℕ, false};
ghost use Rattle.position_set.specs.Sets.{has};
ghost use Rattle.hold_choices.specs.Passing.{is_taken};

use position_set::PositionSet;

/// What is taken from the containers of each class of twins.
#[derive(Drop)]
pub struct Taken {
    /// What is taken from all containers.
    pub from_all: PositionSet,
    /// What is taken from the twins of each class besides.
    pub from_twins: [PositionSet; 60],
}

impl Taken {
    /// Nothing is taken.
    pub fn nothing() -> Taken
        ensures { (class p : ℕ) → class < 60 → is_taken result class p ≡ false }
    {
        Taken {
            from_all: PositionSet::empty(),
            from_twins: [PositionSet::empty(); 60],
        }
    }

    /// What is taken from the containers of a class.
    pub fn from_class(&self, class: u8) -> PositionSet
        requires { class < 60 }
        ensures { (p : ℕ) → has result p ≡ is_taken self.now class p }
    {
        self.from_all.union(self.from_twins[usize::from(class)])
    }

    /// Takes what one container more takes from all, and from the twins of its class.
    pub fn add(&mut self, from_all: PositionSet, class: u8, from_twins: PositionSet)
        requires { class < 60 }
        ensures { (k p : ℕ) → k < 60 → is_taken self.new k p
            ≡ (is_taken self.old k p || (has from_all p || ((class == k) && has from_twins p))) }
    {
        self.from_all = self.from_all.union(from_all);
        let place = usize::from(class);
        self.from_twins[place] = self.from_twins[place].union(from_twins);
    }
}
