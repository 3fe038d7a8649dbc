//! The module P, for tests here and above.
ghost use Rattle.std.specs.Prelude.{◌≡◌, IfOk};
ghost use Rattle.tdl_plain.specs.Counting.{counting_form};

use crate::Form;
use std::alloc::Global;
use tdl_base::{NoMemory, Text};

/// The source of P, whose task adds a sensor's number to its output every 5 ms.
pub const COUNTING_SOURCE: &str = "module P {
  sensor int s;
  public task inc [wcet=200us] {
    input int a;
    output int o := 10;
    o := o + a;
  }
  start mode main [period=5ms] {
    task [freq=1] inc(s);
  }
}
";

/// The form of that source.
pub fn counting_form(alloc: Global) -> Result<Form, NoMemory>
    ensures { IfOk result (λ form. form ≡ counting_form) }
{
    Ok(Form {
        module: Text::from_str(alloc, "P")?,
        sensor: Text::from_str(alloc, "s")?,
        task: Text::from_str(alloc, "inc")?,
        worst: 200,
        input: Text::from_str(alloc, "a")?,
        output: Text::from_str(alloc, "o")?,
        initial: 10,
        mode: Text::from_str(alloc, "main")?,
        period: 5,
    })
}
