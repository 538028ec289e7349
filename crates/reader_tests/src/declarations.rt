//! What a program declares: structs, functions and fields by their names, variables that hide each other, and names that stood
//! earlier.

use crate::rows::is;
use crate::sources::tree_of;
use Asked::{Field, Function, Struct};
use c_syntax::expressions::Identifier;
use c_syntax::items::Parameter;
use c_syntax::token::Span;
use std::alloc::Global;
use std::process::Abort;
use typing_symbols::declarations::Declarations;
use typing_symbols::name_set::NameSet;
use typing_symbols::variables::{Variable, Variables};

const MEMORY: &str = "memory for names and trees";

/// Two structs and a function of one name, two functions of another, with each name on a line of its own.
const PROGRAM: &str = "struct node {\n\
    int x;\n\
    _(ghost int x)\n\
    _(ghost int y) };\n\
    void node(int a,\n\
    int ab,\n\
    int b,\n\
    int a,\n\
    int a) { }\n\
    struct node { int z; };\n\
    int main() { }\n\
    int main() { }";

/// What is asked for by a name: a struct, a function, or a field of a struct.
#[derive(Clone, Copy)]
enum Asked {
    Struct,
    Function,
    Field(usize),
}

/// Names, and the lines of what they name.
const NAMES: &[(Asked, &str, Option<u32>)] = &[
    (Struct, "node", Some(1)),
    (Struct, "main", None),
    (Struct, "nod", None),
    (Function, "node", Some(5)),
    (Function, "main", Some(11)),
    (Function, "", None),
    (Field(0), "x", Some(2)),
    (Field(0), "y", Some(4)),
    (Field(0), "z", None),
    (Field(1), "x", None),
    (Field(1), "z", Some(10)),
];

/// How many variables are kept, a name, and the line of its variable.
const SCOPES: &[(usize, &str, Option<u32>)] = &[
    (5, "a", Some(9)),
    (5, "ab", Some(6)),
    (5, "b", Some(7)),
    (4, "a", Some(8)),
    (3, "a", Some(5)),
    (1, "a", Some(5)),
    (1, "b", None),
    (0, "a", None),
];

/// Whether each parameter's name stood earlier.
const NOTES: &[bool] = &[false, false, false, true, true];

fn name(rt: &impl Abort, alloc: Global, text: &str) -> Identifier {
    Identifier {
        span: Span { line: 1, column: 1 },
        name: text.as_bytes().to_vec(alloc).expect(rt, MEMORY),
    }
}

/// The line of what has this name.
fn line_of(declarations: &Declarations, asked: Asked, name: &Identifier) -> Option<u32> {
    match asked {
        Struct => declarations.find_struct(name).map(|s| s.tree.span.line),
        Function => declarations.find_function(name).map(|f| f.span.line),
        Field(at) => {
            let entry = declarations.structs().get(at)?;
            entry.find_field(name).map(|f| f.name.span.line)
        }
    }
}

fn check_names(rt: &impl Abort, alloc: Global, declarations: &Declarations) {
    for (asked, text, want) in NAMES {
        let name = name(rt, alloc, text);
        let line = line_of(declarations, *asked, &name);
        is(rt, &(*text, line), &(*text, *want));
    }
}

fn push_all<'a>(rt: &impl Abort, known: &mut Variables<'a>, parameters: &'a [Parameter]) {
    for parameter in parameters {
        let variable = Variable {
            name: &parameter.name,
            ty: &parameter.ty,
            is_ghost: false,
        };
        known.push(variable).expect(rt, MEMORY);
    }
}

fn check_variables(rt: &impl Abort, alloc: Global, parameters: &[Parameter]) {
    let mut known = Variables::new(alloc);
    push_all(rt, &mut known, parameters);
    for row in SCOPES {
        if row.0 <= known.count() {
            known.keep(row.0);
        }
        let asked = name(rt, alloc, row.1);
        let line = known.find(&asked).map(|v| v.name.span.line);
        is(rt, &(known.count(), row.1, line), row);
    }
}

fn check_notes(rt: &impl Abort, alloc: Global, parameters: &[Parameter]) {
    let mut names = NameSet::new(alloc);
    for (parameter, want) in parameters.iter().zip(NOTES) {
        let stood = names.note(&parameter.name).expect(rt, MEMORY);
        is(rt, &stood, want);
    }
}

#[test]
fn finds_what_is_declared(rt: HostRuntime) {
    let alloc = rt.alloc();
    let tree = tree_of(alloc, PROGRAM).expect(&rt, "a source that reads");
    let declarations = Declarations::of(alloc, &tree.items).expect(&rt, MEMORY);
    check_names(&rt, alloc, &declarations);
    let function = declarations.functions().first().expect(&rt, "a function");
    check_variables(&rt, alloc, &function.parameters);
    check_notes(&rt, alloc, &function.parameters);
}
