// How the program is called.
use console::Stopped;

pub const USAGE: &str = "usage:
  families pack < TEXT > SHEET
  families from-dump DUMP > SHEET
  families show SHEET
  families listing [--by-mean] K T SHEET
  families mean K T NAME.. SHEET
  families strong K product X SHEET
  families strong K weakest T SHEET
  families tree K SHEET
  families meet K NAME.. -- NAME.. SHEET
  families slots K T SHEET
  families fullest P K > SHEET
  families live K
";

// Tells what is wrong with the arguments, then the usage.
pub fn wrong(rt: &impl Eprint, what: &str) -> Stopped {
    let _ = eprint!(rt; "families: {what}\n{USAGE}");
    Stopped::Told
}
