//! The documents of rows, with parts in place or by reference.
ghost use Rattle.std.specs.Prelude.{Bool, true, false, codes, reverse, ◌≡◌, ◌<◌, ◌≤◌, length, IfOk, OnOk, OnErr};
ghost use Rattle.schemars_build.specs.Registry as specs;
ghost use Rattle.schemars_templates.specs.Template as spec;
ghost use Rattle.schemars_build.specs.Words.{Data, filled, IsChecked, reference, is_in_place, Step, rolled_back, reference_to, plan_of, is_inline_at, ask_of, template_view, replaced, row_asked, IsAnswer, IsOwn, Wanted, own, asked, wanted, row_wanted, IsReply, IsTemplate, IsTemplateAt, IsOpened, IsInMaking, document, IsGivenBack, HasReplied, GoesOn, IsTaken, HasFirst, AreMaking, measure_of_asked, measure_of_own_document, measure_of_part, measure_of_making, measure_of_turn, IsWithin, IsLess, IsRendered};
ghost use Rattle.schemars_build.specs.declared.build.Document as src;

use crate::registry::Registry;
use schemars_definitions::Definitions;
use schemars_documents::entry_template;
use schemars_documents::template::basis::Basis;
use schemars_documents::template::{Ask, SchemaTemplate};
use schemars_flatten::{as_flattened, must_be_in_place, open_inside};
use schemars_render::{Answer, Rendered, fill, render};
use schemars_schema::Schema;
use schemars_schema::encoding::encode_ref_name;
use schemars_types::{Contract, TypeNo, Types, row_inside, without_options};
use std::alloc::{AllocError, Global};

/// What stays the same while documents are made.
#[derive(Clone, Copy)]
pub struct Plan<'t> {
    pub types: &'t Types,
    pub contract: Contract,
    /// whether the variants of an untagged enum have their names as titles
    pub titles: bool,
    /// whether rows are written in place wherever they are not pending
    pub inlines: bool,
    /// where the definitions are
    pub path: &'t str,
    /// the row whose root document is made
    pub root: Option<TypeNo>,
}

// What a document is made for. A truth value beside the first two says whether the row was entered
// as pending for it.
#[derive(Drop)]
enum Purpose {
    // as the row's own document
    Own(bool),
    // as the definition of this name
    Definition(String, bool),
    // for the members of the row, which may be missing or not
    Members(bool),
    // for the content beside a tag
    Content,
}

// A document in the making: its template, the rows that it asks for, and their answers so far.
#[derive(Drop)]
struct Document<'t> {
    row: TypeNo,
    purpose: Purpose,
    // whether it is in a definition
    in_definition: bool,
    template: SchemaTemplate<'t>,
    asks: Vec<Ask>,
    answers: Vec<Answer<'t>>,
}

// What is asked first: a row's own document, or an answer.
#[derive(Clone, Copy)]
enum Request {
    Own(TypeNo),
    Asked(Ask),
}

/// The document of row `n`, with its notes. Where rows are inlined, the row is pending meanwhile.
pub fn own_document<D: Definitions>(
    alloc: Global,
    plan: &Plan<'_>,
    registry: &mut Registry<D>,
    in_definition: bool,
    n: TypeNo,
) -> Result<Schema, AllocError>
    requires checked { IsChecked (plan_of plan.now).rows }
    requires known { n < length (plan_of plan.now).rows }
    ensures rolled_back { rolled_back registry.new ≡ rolled_back registry.old }
    ensures step { OnOk result (Step (plan_of plan.now) registry.old registry.new) }
    ensures is { IfOk result (IsOwn (plan_of plan.now) in_definition registry.old registry.new n) }
{
    let own = run(alloc, plan, registry, in_definition, Request::Own(n))?;
    Ok(own)
}

/// Returns the answer to a request: the row's schema as a part, a schema of its members, or a
/// schema of the content beside a tag.
pub fn answer<D: Definitions>(
    alloc: Global,
    plan: &Plan<'_>,
    registry: &mut Registry<D>,
    in_definition: bool,
    ask: Ask,
) -> Result<Schema, AllocError>
    requires checked { IsChecked (plan_of plan.now).rows }
    requires known { row_asked (ask_of ask) < length (plan_of plan.now).rows }
    ensures rolled_back { rolled_back registry.new ≡ rolled_back registry.old }
    ensures step { OnOk result (Step (plan_of plan.now) registry.old registry.new) }
    ensures is { IfOk result (IsAnswer (plan_of plan.now) in_definition registry.old registry.new
        (ask_of ask)) }
{
    let answer = run(alloc, plan, registry, in_definition, Request::Asked(ask))?;
    Ok(answer)
}

// Answers the request. The documents that are being made are in a list, the innermost last: each
// waits for the one after it, and no call waits in another call for it.
fn run<D: Definitions>(
    alloc: Global,
    plan: &Plan<'_>,
    registry: &mut Registry<D>,
    in_definition: bool,
    request: Request,
) -> Result<Schema, AllocError>
    requires checked { IsChecked (plan_of plan.now).rows }
    requires known { row_wanted (wanted request) < length (plan_of plan.now).rows }
    ensures rolled_back { rolled_back registry.new ≡ rolled_back registry.old }
    ensures step { OnOk result (Step (plan_of plan.now) registry.old registry.new) }
    ensures is { IfOk result
        (IsReply (plan_of plan.now) in_definition registry.old registry.new (wanted request)) }
{
    let mut making = Vec::new(alloc);
    let mut answer = start(alloc, plan, registry, &mut making, in_definition, request)?;
    'going: loop {
        let last = deliver(&mut making, answer)?;
        if let Some(answer) = last {
            return answer.into_schema(alloc);
        }
        answer = step(alloc, plan, registry, &mut making)?;
    }
}

// Gives an answer to the document that waits for it. Where none waits, it is what was asked first.
fn deliver<'t>(
    making: &mut Vec<Document<'t>>,
    answer: Option<Answer<'t>>,
) -> Result<Option<Answer<'t>>, AllocError>
    ensures { IfOk result (IsTaken (reverse making.old.items) answer.entry (reverse making.new.items)) }
{
    let Some(answer) = answer else {
        return Ok(None);
    };
    let Some(document) = making.last_mut() else {
        return Ok(Some(answer));
    };
    document.answers.push(answer)?;
    Ok(None)
}

// Goes on with the innermost document: it asks the next row, or is done where all have answered.
fn step<'t, D: Definitions>(
    alloc: Global,
    plan: &Plan<'t>,
    registry: &mut Registry<D>,
    making: &mut Vec<Document<'t>>,
) -> Result<Option<Answer<'t>>, AllocError>
    requires checked { IsChecked (plan_of plan.now).rows }
    requires first { HasFirst (IsTemplate (plan_of plan.now)) (reverse making.old.items) }
    ensures rolled_back { OnErr result (rolled_back registry.new ≡ rolled_back registry.old) }
    ensures goes_on { IfOk result (λ o. (first : Bool) (start : specs.Registry) (all : Wanted)
        → AreMaking (plan_of plan.now) first start all registry.old (reverse making.old.items)
        → GoesOn (plan_of plan.now) first start all registry.new (reverse making.new.items) o) }
    ensures less { IfOk result (λ o. (first : Bool) (start : specs.Registry) (all : Wanted)
        → AreMaking (plan_of plan.now) first start all registry.old (reverse making.old.items)
        → measure_of_turn (plan_of plan.now) registry.new (reverse making.new.items) o
        < measure_of_making (plan_of plan.now) registry.old (reverse making.old.items)) }
{
    let (in_definition, next) = match making.last() {
        Some(document) => (
            document.in_definition,
            document.asks.get(document.answers.len()).copied(),
        ),
        None => unreachable!(),
    };
    if let Some(ask) = next {
        return reply_to(alloc, plan, registry, making, in_definition, ask);
    }
    match making.pop() {
        Some(document) => finish_document(alloc, plan, registry, making, document),
        None => unreachable!(),
    }
}

// Replies to the first request.
fn start<'t, D: Definitions>(
    alloc: Global,
    plan: &Plan<'t>,
    registry: &mut Registry<D>,
    making: &mut Vec<Document<'t>>,
    in_definition: bool,
    request: Request,
) -> Result<Option<Answer<'t>>, AllocError>
    requires checked { IsChecked (plan_of plan.now).rows }
    requires known { row_wanted (wanted request) < length (plan_of plan.now).rows }
    ensures rolled_back { rolled_back registry.new ≡ rolled_back registry.old }
    ensures replies { IfOk result
        (HasReplied (plan_of plan.now) in_definition registry.old (wanted request)
        (reverse making.old.items) (λ r. Unit {0}) registry.new (reverse making.new.items)) }
{
    match request {
        Request::Own(n) => start_own(alloc, plan, registry, making, in_definition, n),
        Request::Asked(ask) => reply_to(alloc, plan, registry, making, in_definition, ask),
    }
}

// Replies to a request for a row: with an answer, or with a document that is added to the list of
// documents that are being made.
fn reply_to<'t, D: Definitions>(
    alloc: Global,
    plan: &Plan<'t>,
    registry: &mut Registry<D>,
    making: &mut Vec<Document<'t>>,
    in_definition: bool,
    ask: Ask,
) -> Result<Option<Answer<'t>>, AllocError>
    requires checked { IsChecked (plan_of plan.now).rows }
    requires known { row_asked (ask_of ask) < length (plan_of plan.now).rows }
    ensures rolled_back { rolled_back registry.new ≡ rolled_back registry.old }
    ensures replies { IfOk result
        (HasReplied (plan_of plan.now) in_definition registry.old (asked (ask_of ask))
        (reverse making.old.items) (IsWithin (plan_of plan.now)
        (measure_of_asked (plan_of plan.now) registry.old (ask_of ask)) registry.new)
        registry.new (reverse making.new.items)) }
{
    match ask {
        Ask::Part(n) => place_part(alloc, plan, registry, making, in_definition, n),
        Ask::MembersOf(n, required) => {
            let inner = without_options(plan.types, n);
            let is_optional = !required && row_inside(plan.types, n).is_some();
            let purpose = Purpose::Members(is_optional);
            push_document(alloc, plan, making, in_definition, inner, purpose)
        }
        Ask::Content(n) => push_document(alloc, plan, making, in_definition, n, Purpose::Content),
    }
}

// The row's own document: done, where it asks nothing, or begun. Where rows are inlined, the row is
// pending until it is done.
fn start_own<'t, D: Definitions>(
    alloc: Global,
    plan: &Plan<'t>,
    registry: &mut Registry<D>,
    making: &mut Vec<Document<'t>>,
    in_definition: bool,
    n: TypeNo,
) -> Result<Option<Answer<'t>>, AllocError>
    requires checked { IsChecked (plan_of plan.now).rows }
    requires known { n < length (plan_of plan.now).rows }
    ensures rolled_back { rolled_back registry.new ≡ rolled_back registry.old }
    ensures replies { IfOk result
        (HasReplied (plan_of plan.now) in_definition registry.old (own n)
        (reverse making.old.items) (IsWithin (plan_of plan.now)
        (measure_of_own_document (plan_of plan.now) registry.old n) registry.new)
        registry.new (reverse making.new.items)) }
{
    let entered = registry.enter(plan.inlines, n)?;
    let template = template_at(alloc, plan, n)?;
    let asks = template.asks(alloc)?;
    if asks.is_empty() {
        let answer = Answer::filled(alloc, template, Vec::new(alloc))?;
        registry.leave(entered);
        return Ok(Some(answer));
    }
    let answers = Vec::with_capacity(alloc, asks.len())?;
    making.push(Document {
        row: n,
        purpose: Purpose::Own(entered),
        in_definition,
        template,
        asks,
        answers,
    })?;
    Ok(None)
}

// Replies with row `n` as a part: with a reference to its definition or to the root, or with what
// is to stand in its place or in its definition.
fn place_part<'t, D: Definitions>(
    alloc: Global,
    plan: &Plan<'t>,
    registry: &mut Registry<D>,
    making: &mut Vec<Document<'t>>,
    in_definition: bool,
    n: TypeNo,
) -> Result<Option<Answer<'t>>, AllocError>
    requires checked { IsChecked (plan_of plan.now).rows }
    requires known { n < length (plan_of plan.now).rows }
    ensures rolled_back { rolled_back registry.new ≡ rolled_back registry.old }
    ensures replies { IfOk result
        (HasReplied (plan_of plan.now) in_definition registry.old (asked (spec.part n))
        (reverse making.old.items) (IsWithin (plan_of plan.now)
        (measure_of_part (plan_of plan.now) registry.old n) registry.new)
        registry.new (reverse making.new.items)) }
{
    if is_in_place(plan, registry, n) {
        return start_own(alloc, plan, registry, making, in_definition, n);
    }
    if plan.root == Some(n) {
        registry.note_root_reference(in_definition);
        let root = root_reference(alloc)?;
        return Ok(Some(root));
    }
    let is_named = registry.is_named(plan.contract, n);
    let name = registry.name_for(alloc, plan.types, plan.contract, n)?;
    if !registry.begin_new(alloc, name.as_str(), is_named)? {
        let reference = reference_to(alloc, plan.path, name.as_str())?;
        return Ok(Some(reference));
    }
    let entered = registry.enter(plan.inlines, n)?;
    push_document(
        alloc,
        plan,
        making,
        true,
        n,
        Purpose::Definition(name, entered),
    )
}

// Whether row `n` is in place where it is a part.
fn is_in_place<D: Definitions>(plan: &Plan<'_>, registry: &Registry<D>, n: TypeNo) -> bool
    ensures { result ≡ is_in_place (plan_of plan.now).rows plan.now.inlines registry.now.pending n }
{
    is_inline(plan.types, n) || (plan.inlines && !registry.is_pending(n))
}

// Begins the document of row `n`, with its notes, of which nothing has been answered.
fn push_document<'t>(
    alloc: Global,
    plan: &Plan<'t>,
    making: &mut Vec<Document<'t>>,
    in_definition: bool,
    n: TypeNo,
    purpose: Purpose,
) -> Result<Option<Answer<'t>>, AllocError>
    requires checked { IsChecked (plan_of plan.now).rows }
    requires known { n < length (plan_of plan.now).rows }
    ensures { IfOk result (λ o. (d : src.Document)
        × IsOpened (plan_of plan.now) in_definition n purpose d
        × IsGivenBack (document d) (reverse making.old.items) (reverse making.new.items) o) }
{
    let template = template_at(alloc, plan, n)?;
    let asks = template.asks(alloc)?;
    let answers = Vec::with_capacity(alloc, asks.len())?;
    making.push(Document {
        row: n,
        purpose,
        in_definition,
        template,
        asks,
        answers,
    })?;
    Ok(None)
}

// The template of row `n`'s document, with its notes.
fn template_at<'t>(
    alloc: Global,
    plan: &Plan<'t>,
    n: TypeNo,
) -> Result<SchemaTemplate<'t>, AllocError>
    requires checked { IsChecked (plan_of plan.now).rows }
    requires known { n < length (plan_of plan.now).rows }
    ensures { IfOk result (IsTemplateAt (plan_of plan.now) n) }
{
    let entry = match plan.types.entry(n) {
        Some(entry) => entry,
        None => unreachable!(),
    };
    let basis = Basis {
        types: plan.types,
        contract: plan.contract,
        titles: plan.titles,
    };
    entry_template(alloc, &basis, entry)
}

// Replies with what is made of a document whose parts have all answered.
fn finish_document<'t, D: Definitions>(
    alloc: Global,
    plan: &Plan<'t>,
    registry: &mut Registry<D>,
    making: &mut Vec<Document<'t>>,
    document: Document<'t>,
) -> Result<Option<Answer<'t>>, AllocError>
    requires checked { IsChecked (plan_of plan.now).rows }
    requires template { IsTemplate (plan_of plan.now) document }
    requires all_answered { length document.asks.items ≤ length document.answers.items }
    ensures rolled_back { OnErr result (rolled_back registry.new ≡ rolled_back registry.old) }
    ensures replies { IfOk result (λ o. (outside : Bool) (old : specs.Registry) (want : Wanted)
        → IsInMaking (plan_of plan.now) outside old want registry.old document.entry
        → HasReplied (plan_of plan.now) outside old want (reverse making.old.items)
        (IsLess (plan_of plan.now) registry.old document.entry (reverse making.old.items)
        registry.new)
        registry.new (reverse making.new.items) o) }
{
    let Document {
        row,
        purpose,
        in_definition,
        template,
        answers,
        ..
    } = document;
    match purpose {
        Purpose::Own(entered) => {
            let answer = Answer::filled(alloc, template, answers)?;
            registry.leave(entered);
            Ok(Some(answer))
        }
        Purpose::Definition(name, entered) => {
            let reference = reference_to(alloc, plan.path, name.as_str())?;
            registry.leave(entered);
            define(alloc, registry, name.as_str(), template, answers)?;
            Ok(Some(reference))
        }
        Purpose::Members(is_optional) => {
            let mut schema = fill(alloc, template, answers)?;
            as_flattened(alloc, &mut schema, is_optional)?;
            Ok(Some(Answer::schema(schema)))
        }
        Purpose::Content => {
            let mut schema = fill(alloc, template, answers)?;
            if !must_be_in_place(&schema, is_inline(plan.types, row) || plan.inlines) {
                return place_part(alloc, plan, registry, making, in_definition, row);
            }
            open_inside(alloc, &mut schema)?;
            Ok(Some(Answer::schema(schema)))
        }
    }
}

// Puts what is made of the template into the place of the definition that was begun: as text, where
// definitions are kept so and the text can be written from the template.
fn define<D: Definitions>(
    alloc: Global,
    registry: &mut Registry<D>,
    name: &str,
    template: SchemaTemplate<'_>,
    answers: Vec<Answer<'_>>,
) -> Result<(), AllocError>
    ensures ok { OnOk result (registry.new ≡ record registry.old {
      definitions = replaced name.now (filled (template_view template.entry) answers.entry.items)
          registry.old.definitions;
    }) }
    ensures err { OnErr result (registry.new ≡ registry.old) }
{
    let is_kept = if registry.wants_texts() {
        define_text(alloc, registry, name, &template, &answers)?
    } else {
        false
    };
    if is_kept {
        return Ok(());
    }
    let schema = fill(alloc, template, answers)?;
    registry.finish(alloc, name, schema)
}

// Puts the text of what is made of the template into the place of the definition that was begun, and
// the text of what transforms make of that, where these can be written with no schema made. The
// answer is whether they were.
fn define_text<D: Definitions>(
    alloc: Global,
    registry: &mut Registry<D>,
    name: &str,
    template: &SchemaTemplate<'_>,
    answers: &[Answer<'_>],
) -> Result<bool, AllocError>
    ensures kept { IfOk result (λ b. b ≡ true → registry.new ≡ record registry.old {
      definitions = replaced name.now (filled (template_view template.now) answers.now)
          registry.old.definitions;
    }) }
    ensures left { IfOk result (λ b. b ≡ false → registry.new ≡ registry.old) }
    ensures err { OnErr result (registry.new ≡ registry.old) }
{
    match render(alloc, template, answers, !registry.changes_nothing())? {
        Some(rendered) => finish_rendered(alloc, registry, name, rendered),
        None => Ok(false),
    }
}

// The same with what is rendered.
fn finish_rendered<D: Definitions>(
    alloc: Global,
    registry: &mut Registry<D>,
    name: &str,
    rendered: Rendered<'_>,
) -> Result<bool, AllocError>
    requires { IsRendered rendered.schema rendered }
    ensures kept { (d : Data) → IsRendered d rendered.entry → IfOk result (λ b. b ≡ true
        → registry.new ≡ record registry.old
        { definitions = replaced name.now d registry.old.definitions }) }
    ensures left { IfOk result (λ b. b ≡ false → registry.new ≡ registry.old) }
    ensures err { OnErr result (registry.new ≡ registry.old) }
{
    let Rendered {
        text,
        needs,
        schema,
    } = rendered;
    let Err(text) = registry.finish_text(name, text, needs) else {
        return Ok(true);
    };
    let Some(needs) = needs else {
        return Ok(false);
    };
    let transforms = registry.transforms(alloc)?;
    match schema.changed_text(alloc, &transforms, needs)? {
        Some(changed) => Ok(registry.finish_changed(name, text, changed)),
        None => {
            registry.note_unkept();
            Ok(false)
        }
    }
}

fn is_inline(types: &Types, n: TypeNo) -> bool
    ensures { result ≡ is_inline_at types.now n }
{
    match types.entry(n) {
        Some(entry) => entry.inline,
        None => false,
    }
}

// The whole document.
fn root_reference<'t>(alloc: Global) -> Result<Answer<'t>, AllocError>
    ensures { IfOk result (λ s. s ≡ reference (codes "#")) }
{
    let text = String::from_str(alloc, "#")?;
    Ok(Answer::reference(text))
}

// The definition of this name.
fn reference_to<'t>(alloc: Global, path: &str, name: &str) -> Result<Answer<'t>, AllocError>
    ensures { IfOk result (λ s. s ≡ reference (reference_to path.now name.now)) }
{
    let token = encode_ref_name(alloc, name)?;
    let room = path.len().saturating_add(token.len()).saturating_add(2);
    let mut text = String::with_capacity(alloc, room)?;
    text.push('#')?;
    text.push_str(path)?;
    text.push('/')?;
    text.push_str(token.as_str())?;
    Ok(Answer::reference(text))
}
