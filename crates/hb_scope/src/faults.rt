ghost use Rattle.std.specs.Prelude.{◌≡◌, Some, IfSome, IsTrue};
ghost use Rattle.hb_settle.specs.Order.{first_of};
ghost use Rattle.hb_scope.specs.Faults.{first_fault, is_of_names};

use hb_base::{Code, Name, Place};
use hb_settle::earlier;
use hb_tree::NameAt;

/// The earliest fault of each rule so far: a name that means nothing, a name that comes twice, operators that group in no way,
/// and a definition or a signature without the other. Of faults at one place the one that was met first stays.
#[derive(Clone, Copy)]
pub(crate) struct Faults {
    pub(crate) unbound: Option<NameAt>,
    pub(crate) twice: Option<NameAt>,
    pub(crate) clash: Option<NameAt>,
    pub(crate) lone: Option<NameAt>,
}

impl Faults {
    pub(crate) fn put_unbound(&mut self, place: Place, name: Name)
        ensures unbound { self.new.unbound ≡ Some (first_of self.old.unbound (record { place = place; name = name })) }
        ensures twice { self.new.twice ≡ self.old.twice }
        ensures clash { self.new.clash ≡ self.old.clash }
        ensures lone { self.new.lone ≡ self.old.lone }
    {
        self.unbound = earlier(self.unbound, NameAt { place, name });
    }

    pub(crate) fn put_twice(&mut self, place: Place, name: Name)
        ensures unbound { self.new.unbound ≡ self.old.unbound }
        ensures twice { self.new.twice ≡ Some (first_of self.old.twice (record { place = place; name = name })) }
        ensures clash { self.new.clash ≡ self.old.clash }
        ensures lone { self.new.lone ≡ self.old.lone }
    {
        self.twice = earlier(self.twice, NameAt { place, name });
    }

    pub(crate) fn put_lone(&mut self, place: Place, name: Name)
        ensures unbound { self.new.unbound ≡ self.old.unbound }
        ensures twice { self.new.twice ≡ self.old.twice }
        ensures clash { self.new.clash ≡ self.old.clash }
        ensures lone { self.new.lone ≡ Some (first_of self.old.lone (record { place = place; name = name })) }
    {
        self.lone = earlier(self.lone, NameAt { place, name });
    }

    /// The fault of the first rule that is broken.
    pub(crate) fn first(&self) -> Option<(Code, NameAt)>
        ensures first { result ≡ first_fault self.now }
        ensures codes { IfSome result (λ fault. IsTrue (is_of_names fault.0)) }
    {
        if let Some(at) = self.unbound {
            return Some((Code::E06, at));
        }
        if let Some(at) = self.twice {
            return Some((Code::E07, at));
        }
        if let Some(at) = self.clash {
            return Some((Code::E08, at));
        }
        match self.lone {
            Some(at) => Some((Code::E09, at)),
            None => None,
        }
    }
}
