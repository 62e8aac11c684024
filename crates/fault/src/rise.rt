// A fault on its way up from what stands below.
ghost use Rattle.std.specs.Prelude.{◌≡◌};
ghost use Rattle.std.specs.Result.{result_map_both};

// Marks a fault as one from below, so that `?` raises it by the `From` of the layer's own kind of fault.
#[derive(Drop)]
pub struct Passed<F>(pub F);

pub fn from_below<T, F>(answer: Result<T, F>) -> Result<T, Passed<F>>
    ensures { result ≡ result_map_both (λ v. v) (λ f. record { 0 = f }) answer }
{
    answer.map_err(Passed)
}
