//! Whether a set has some of another's values. Both rise, so one pass along both finds it.

ghost use Rattle.std.specs.Prelude.{◌≡◌, true};
ghost use Rattle.be_model.specs.Forms.{rises};
ghost use Rattle.be_model.specs.Matching.{has_some, lacks_some};

use crate::values::Values;

impl Values {
    /// Whether at least one of the values is among the numbers.
    pub fn has_some(&self, values: &Values) -> bool
        ensures { result ≡ has_some self.now values.now }
    {
        is_some_among(self.as_slice(), values.as_slice())
    }

    /// Whether at least one of the values isn't among the numbers.
    pub fn lacks_some(&self, values: &Values) -> bool
        ensures { result ≡ lacks_some self.now values.now }
    {
        is_some_outside(self.as_slice(), values.as_slice())
    }
}

fn is_some_among(numbers: &[i64], values: &[i64]) -> bool
    requires numbers { rises numbers.now ≡ true }
    requires values { rises values.now ≡ true }
    ensures { result ≡ has_some numbers.now values.now }
{
    let mut i = 0;
    let mut k = 0;
    'both: while i < numbers.len() && k < values.len() {
        if numbers[i] == values[k] {
            return true;
        }
        if numbers[i] < values[k] {
            i += 1;
        } else {
            k += 1;
        }
    }
    false
}

fn is_some_outside(numbers: &[i64], values: &[i64]) -> bool
    requires numbers { rises numbers.now ≡ true }
    requires values { rises values.now ≡ true }
    ensures { result ≡ lacks_some numbers.now values.now }
{
    let mut k = 0;
    for x in numbers {
        if k == values.len() {
            return false;
        }
        if values[k] < *x {
            return true;
        }
        if values[k] == *x {
            k += 1;
        }
    }
    k < values.len()
}
