//! A refused section, and what came of sealing, as they are printed.

use checks::faults::SealFault;
use planlines::fault_line;
use policy::policy::Policy;
use std::fmt;
use wordlist::faults::RecordFault;
use wordlist::fields::kind;
use wordlist::kinds::Kind;

/// What the fields of a word of this kind have to be; a word of no kind is told as one of the last.
// A function and no Display of Kind: it tells of the fields, and not of the kind.
fn wanted(kind: Option<Kind>) -> &'static str {
    match kind {
        Some(Kind::Floor) => "a floor is 1 to 256 points wide and high",
        Some(Kind::Ring) => "a drawn place has 3 to 16 corners",
        Some(Kind::Corner) => "a corner is a point of the floor",
        Some(Kind::Cells) => "a place of cells has a type and nothing else",
        Some(Kind::Row) => "a row has sixteen cells and nothing else",
        Some(Kind::Zone) => "a zone names places of lower numbers, and outside no second one",
        Some(Kind::Badges) => "there are 1 to 128 badges",
        Some(Kind::Schema) => "a schema has two types and a patience and nothing else",
        Some(Kind::Parent) => "a parent is below its child, and both are schemas read before",
        Some(Kind::Role) => "the schema of a role was read before",
        Some(Kind::SchemaPermission) => "the schema of a permission was read before",
        Some(Kind::RolePermission) => "the role of a permission was read before",
        Some(Kind::Assignment) | None =>
            "the role of an assignment was read before, and its badge is one of the badges",
    }
}

/// Prints the fault of a section, and the word where it was found.
pub fn tell(
    rt: &HostRuntime,
    section: &str,
    words: &[u32],
    fault: RecordFault,
) -> anyhow::Result<()> {
    let told = fault.told();
    rt.println(fault_line(rt.alloc(), section, told)?)?;
    let [index, ..] = told.figures;
    let Some(word) = words.get(index) else {
        println!(rt; "  after {index} words: {fault}")?;
        return Ok(());
    };
    let kind = kind(*word);
    println!(rt; "  word {index} is {word:08x}, of kind {kind}: {fault}")?;
    if matches!(fault, RecordFault::BadField { .. }) {
        let rule = wanted(Kind::of(*word));
        println!(rt; "  wanted: {rule}; no bit without a name is set")?;
    }
    Ok(())
}

/// Why a policy is not sealed over a plan of so many places.
#[derive(Clone, Copy)]
struct Unsealed<'a> {
    policy: &'a Policy,
    count: usize,
    fault: SealFault,
}

/// The fault in words.
impl fmt::Display for Unsealed<'_> {
    fn fmt<W: fmt::Write>(&self, f: &mut fmt::Formatter<W>) -> fmt::Result {
        let policy = self.policy;
        match self.fault {
            SealFault::Record(fault) => write!(f, "{fault}"),
            SealFault::Sealed => f.write_str("a policy is sealed already"),
            SealFault::Empty { place } => write!(f, "place {place} covers no point"),
            SealFault::Misplaced { role } => {
                let item = policy.role(role);
                let extent = item.extent;
                let schema = item.schema;
                if extent as usize >= self.count {
                    return write!(
                        f,
                        "role {role}: its extent, place {extent}, is no place in use"
                    );
                }
                let ty = policy.schema(schema as usize).extent;
                write!(
                    f,
                    "role {role}: its extent, place {extent}, is not of type {ty} as its schema {schema} wants"
                )
            }
            SealFault::Outside { schema, place } => {
                let ty = policy.schema(schema).extent;
                write!(
                    f,
                    "schema {schema}: logic place {place} lies in no place of type {ty}"
                )
            }
            SealFault::Overlap {
                schema,
                logic,
                extent,
            } => write!(
                f,
                "schema {schema}: logic place {logic} shares a point with place {extent} and does not lie in it"
            ),
            SealFault::Unlike { child, parent } => {
                let low = policy.schema(child);
                let high = policy.schema(parent);
                let extent = low.extent;
                let logic = low.logic;
                let above = high.extent;
                let over = high.logic;
                write!(
                    f,
                    "schema {child} is a child of schema {parent}, but not both of its types (extent {extent}, logic {logic}) lie in those of its parent (extent {above}, logic {over})"
                )
            }
            SealFault::Impatient { child, parent } => {
                let own = policy.schema(child).patience;
                let most = policy.schema(parent).patience;
                write!(
                    f,
                    "schema {child} is a child of schema {parent}, but bears more misses ({own}) than its parent ({most})"
                )
            }
        }
    }
}

/// Prints what came of sealing a policy over a plan of so many places.
pub fn tell_seal(
    rt: &HostRuntime,
    policy: &Policy,
    count: usize,
    answer: Result<(), SealFault>,
) -> anyhow::Result<()> {
    let Err(fault) = answer else {
        rt.println("seal ok")?;
        return Ok(());
    };
    rt.println(fault_line(rt.alloc(), "seal", fault.told())?)?;
    let reason = Unsealed {
        policy,
        count,
        fault,
    };
    println!(rt; "  {reason}")?;
    Ok(())
}
