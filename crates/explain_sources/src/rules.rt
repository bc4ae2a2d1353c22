//! What is said of a token by where it stands and what stands beside it (C5).

use explain_tokens::{TokenPlace, fits, said_of};
use explain_words::{is_variable, told_before, told_sign};

/// Each rule has where the token stands, what opens the unit, the section or the statement in which it does, the token before it, the token itself and the one
/// behind it, and then what is said. A word before it behind a point is an `output`, one behind an ELSE that seems to begin a condition `otherwise`; a `)` or
/// `]` with nothing open to close is `unopened)` or `unopened]`, a comma between indexes `second`, one between digits `digits`, the integer that may stand
/// behind a minus alone `least`, a `:=` in a condition `condition` and in another head `within`, and a `;` before it behind the name of a unit `titled`. The
/// others that are neither words nor marks of the language are told where they are given (`told_before`, `told_sign`).
const RULES: &str = "\
_ _ _ digits _ no comma stands in a number: underscores may part its digits, as in 1_000
_ _ _ decimals _ no comma stands in a number, and none has decimals
_ _ _ condition _ in a condition equal is written =
begun _ _ remark _ words side by side are no statement; a remark is written // .. or (* .. *)
statement|head|declaration|top|behind _ _ remark _ a remark is written // .. or (* .. *)
statement|head|declaration|top|behind _ _ ( * a comment begins with (* without a blank in it
statement|head|declaration|top|behind _ _ / *|/ a comment begins with /* or // without a blank in it
begun _ otherwise <|>|<=|>=|<>|THEN|AND|OR|XOR|. _ behind ELSE stands no condition; behind ELSIF one does
array _ ARRAY _ _ the bounds of an array stand in brackets, as in ARRAY[1..10] OF DINT
array _ int|OF second|ARRAY _ an array has one index, and its elements are no arrays
array _ int ] _ both bounds of an array are written, as in ARRAY[1..8] OF DINT
array _ int -|:|.|TO _ the bounds of an array have .. between them, as in ARRAY[1..10] OF DINT
array _ int|[|..|- _ _ the bounds of an array are numbers, as in ARRAY[1..10] OF DINT
array _ ] _ _ OF and a kind stand behind the bounds of an array, as in ARRAY[1..10] OF DINT
array _ OF _ _ the elements of an array are BOOL, DINT or TIME
kind _ _ TO _ it is a keyword; a timer is a TON or a TOF
kind _ _ ARRAY _ an array has no address, and is declared as w : ARRAY[1..10] OF DINT
declared|kinded _ _ [ _ an array is declared as w : ARRAY[1..10] OF DINT
valued _ ] [ _ an array has one index, and its elements are no arrays
valued _ output [ _ an output is no array, and has no elements
valued _ word [ _ an expression is at most 128 deep, and this one gets deeper here: each index is one more
valued _ _ [ _ an index stands right behind the name of an array, as in w[1]
value _ [ := ] an assignment is written := without brackets
value _ _ [ _ there are no lists of values: each element is assigned by itself
statement|head _ _ [ _ the name of an array is missing before it
controlled _ _ [ _ an element controls no FOR: that is a variable of the unit's own
assigned _ _ ( _ an instance is called by its name alone, and none is an element
assigned _ _ = _ an assignment is written :=, as in w[1] := 2;
assigned _ _ ;|. = an assignment is written :=, as in w[1] := 2;
assigned _ _ : = an assignment is written :=, without a blank in it
assigned _ _ => _ an assignment is written :=, and => takes an output of a call
assigned _ _ +|- +|-|= an assignment is written out, as w[1] := w[1] + 1
assigned _ _ *|/ = an assignment is written out, as w[1] := w[1] * 2
_ _ _ second _ an array has one index, and its elements are no arrays
_ _ [ ]|unopened] _ an index is missing before it, as in w[1]
_ _ _ unopened] _ no '[' is open here
argument _ , )|, _ a ',' is too many before it, or an argument is missing
ended _ ) , _ the ')' before it ends the call already
valued|ended|statement|head|declaration|kinded|top|behind _ _ unopened) _ no '(' is open here
declared|addressed _ _ colon _ a : stands before the kind, as in n : DINT
name _ _ KIND _ a : stands before the kind, as in n : DINT
declared|addressed|kind _ _ =|:= address AT stands before an address, as in pump AT %QX0.0 : BOOL
declared|addressed|kind _ _ =|:= KIND a : stands before the kind, as in n : DINT
declared _ _ := _ a kind is missing before it, as in n : DINT := 5 (or is END_VAR missing above?)
declared|addressed|kind _ _ =|:= _ a kind is missing before it, as in n : DINT := 5
declared|addressed|kind _ _ ; _ a kind is missing before it, as in n : DINT
_ _ = = _ equal is written =
_ _ = < _ at most is written <=
_ _ < = _ at most is written <=, without a blank in it
_ _ > = _ at least is written >=, without a blank in it
_ _ < > _ unequal is written <>, without a blank in it
_ _ > <|= _ unequal is written <>
_ _ & & _ both is written AND, or & once
_ _ * * _ there are no powers: n * n is written out
_ _ / = _ unequal is written <>
_ _ < < _ bits aren't shifted in the language
_ _ > > _ bits aren't shifted in the language
_ _ - > _ an output is read with a point, as in t.Q
_ _ - - _ a remark is written // .. or (* .. *)
_ _ * )|unopened)|/ _ no comment is open that this ends; comments don't stand in one another
value _ times / _ a value is missing before it
_ _ : = _ an assignment is written :=, without a blank in it
begun _ _ labelling _ a label is a whole number alone, as in 2:
begun _ _ = _ an assignment is written :=
begun _ _ ;|. = an assignment is written :=
value _ := = _ an assignment is written :=, with one =
begun _ _ outlet _ an output is taken inside of a call: the one above has its ')' already, or the name of an instance and a '(' are missing
begun _ _ => _ an assignment is written :=, and => takes an output of a call
begun _ _ : = an assignment is written :=, without a blank in it
statement _ ELSE headless _ behind ELSE stands no condition; behind ELSIF one does
begun|statement|head _ _ headless _ a condition stands behind IF or ELSIF, and none is before this one
begun _ variable word|NOT|TRUE|FALSE|int|literal _ a := is missing before it
begun _ _ bare _ a '(' is missing before it, as in t(IN := a);
begun _ _ apart _ the word above it is no statement: one assigns or calls, as in n := 1; or t(IN := a);
begun _ _ parted _ the word before it begins no statement, and a name has no blanks in it
begun _ _ declaring _ a declaration stands between VAR and END_VAR
begun _ _ given _ an assignment is written :=, and a declaration stands between VAR and END_VAR
begun _ _ : KIND a declaration stands between VAR and END_VAR
begun _ _ : _ an assignment is written :=, and the labels of a CASE are integers
begun _ _ +|- +|-|= an assignment is written out, as n := n + 1
begun _ _ *|/ = an assignment is written out, as n := n * 2
begun|statement|head|declaration|top|behind _ _ * )|/ no comment is open that this ends; comments don't stand in one another
begun _ _ . word an output is read as t.Q, and an input is given in a call, as t(IN := a)
begun _ _ . int a bit of a number has no name
begun _ _ , _ a statement assigns one variable (or is VAR missing above?)
begun _ _ set _ an assignment is written :=, and S= and R= aren't part of the language
begun _ _ right _ a := is missing before it
begun _ _ PART _ the word before it is no statement: one assigns or calls, as in n := 1; or t(IN := a);
begun _ _ SECTION _ the word before it begins no statement and no declaration, and the name of a unit is one word
statement|head|declaration|top|behind _ _ <|=|> <|=|> marks as <<<<<<< and >>>>>>> stand around two versions of a text: keep one, and delete these lines
statement|head _ _ - - a remark is written // .. or (* .. *)
statement|head _ _ marked _ no sign stands before a statement
statement|head _ _ reversed _ what is assigned stands before the :=, as in n := NOT m
statement CASE _ unlabelled _ a label is missing before it, as in 2:
statement _ _ stray _ a ':' stands behind a label of the CASE, and none is before this one
statement _ _ : _ no : stands here; statements begin at once
statement CASE _ late _ the CASE has its ELSE already, which is its last part
statement|head _ _ label _ a label stands in a CASE, and none is open here: is CASE .. OF missing above?
statement|head _ _ loose _ a label stands in a CASE, and none is open here
statement|head _ _ unnamed _ the name of an instance is missing before it, as in t(IN := a);
statement _ _ := _ the name of a variable is missing before it, as in n := 1;
head _ END_VAR := _ the name of a variable is missing before it, as in n := 1;
statement CASE _ =|<|>|<=|>=|<> int|- a label is a whole number alone, as in 2:, and those from one to another are written 1..3
statement _ ; +|-|*|/|&|AND|OR|XOR|MOD|=|<|>|<=|>=|<>|. _ the ';' before it ends its statement already
statement _ THEN =|<|>|<=|>=|<>|&|AND|OR|XOR _ the THEN before it ends the condition already
statement CASE _ literal : a label is a whole number alone, as in 2:
statement CASE _ ( int a label has no parentheses, as in 2:
statement|head _ _ int _ no number stands before a statement, but for the labels of a CASE
statement CASE _ TRUE|FALSE : a label is a whole number, as in 2:; an IF asks for TRUE or FALSE
statement|head|control|taker|member _ _ KEYWORD :|:=|, it is a keyword, and can't be a name
statement _ ELSE THEN _ behind ELSE stands no THEN
statement IF _ ELSE|ELSIF _ the IF has its ELSE already, which is its last part
statement CASE _ ELSE _ the CASE has its ELSE already, which is its last part
statement _ titled VAR|VAR_INPUT|VAR_OUTPUT|VAR_EXTERNAL _ no ';' stands behind the name of a unit: it is a statement, and declarations stand above all of these
statement _ _ VAR|VAR_INPUT|VAR_OUTPUT|VAR_EXTERNAL _ declarations stand above all statements of their unit, and a ';' is one
statement|begun|head _ _ KIND _ a declaration stands between VAR and END_VAR, as in n : DINT;
valued _ _ braced _ a call has parentheses, as in t(IN := a);
valued|taken _ _ parting _ arguments have a ',' between them, and a ';' ends the call
valued _ int label _ a label of a CASE stands alone, as in 2:
valued _ _ measure _ behind a number stands no unit, and between two values an operator
valued _ _ ending _ a statement ends with a ';'
valued _ _ unpointed _ a '.' is missing before it: an output is read as t.Q
valued _ _ beside _ no blank stands in a name, and between two values stands an operator
valued _ _ beyond _ a ',' parts the arguments of a call: the one above has its ')' already, or the name of an instance and a '(' are missing
valued _ int thousands _ an operator is missing between two numbers, or they are one: underscores may part its digits, as in 1_000
valued _ _ unfinished _ a statement assigns one variable, with one :=, and the one above goes on to here: does it end with a value and a ';'?
valued SECTION given := _ an instance has no initial values: a call gives them, as in t(PT := T#5s);
value|valued _ _ chosen _ an IF chooses between statements and not between values, as in IF c THEN n := 1; ELSE n := 2; END_IF;
valued _ _ assigning _ an argument has one :=, and arguments have a ',' between them
valued _ _ point _ arguments have a ',' between them, and no '.'
valued _ _ dots _ an output is read with one point, as in t.Q
valued _ int . _ there are no REALs: numbers are whole, and only those of a duration may have a point
valued _ output ( _ an output is read without parentheses, as in t.Q
valued _ _ ; THEN|DO|OF the ';' is too many: what it ends goes on
valued _ word ( _ there are no functions, and a call of an instance stands by itself, as t(IN := a);
valued _ word|output . _ behind the name of an output stands no point
valued _ _ => _ at least is written >=, and => takes an output of a call
valued _ _ range _ an index is one value, as in w[1]: each element is read and assigned by itself
valued _ _ .. _ the bounds of a FOR have TO between them, as in FOR i := 1 TO 8 DO
valued _ _ := _ a statement assigns one variable, with one :=
value _ CASE ELSE _ the last part of a CASE is ELSE alone
value _ _ . int there are no REALs: numbers are whole, and only those of a duration may have a point
value _ _ + ; an assignment is written out, as n := n + 1
value _ + + _ it stands here twice
value _ _ + word|int|literal|( no + stands before a value, as in 200 (a - may, as in -200)
value _ _ ;|)|unopened)|,|THEN|END_IF|END_CASE|END_FOR _ a value is missing before it
value _ _ KIND ( there are no functions, and no kind is made of another one
value _ _ KIND _ it is a kind, and a value is wanted here
value _ _ TO|BY|OF|DO|AT _ it is a keyword, and a value is wanted here
value _ _ MOD _ a remainder is written between its numbers, as n MOD 2
value|label _ _ least _ 2147483648 may stand behind a - alone; the greatest DINT is 2147483647
argument _ _ KEYWORD := it is a keyword, and can't be a name
argument _ ( double _ a call has one '(' alone
argument|argued _ _ element _ an element is written with brackets, as in w[1]
argued _ _ ;|. = an input is given with :=, as in t(IN := a)
argued _ _ =|: => an output is taken with =>, as in t(Q => b)
argued _ _ : > an output is taken with =>, as in t(Q => b)
argued _ _ - > an output is taken with =>, as in t(Q => b)
argued _ _ int|literal|TRUE|FALSE|NOT _ a := is missing before it, as in t(IN := a)
argued _ _ word|- _ behind the name of an argument stands := or =>, as in t(IN := a, Q => b)
argued _ _ = > an output is taken with =>, without a blank in it, as in t(Q => b)
argued _ _ : = an input is given with :=, without a blank in it, as in t(IN := a)
argued _ _ =|: _ an input is given with :=, and an output is taken with =>, as in t(IN := a, Q => b)
argued _ _ ( _ there are no functions, and an argument is written with its name, as in t(IN := a)
argued _ _ >= _ an output is taken with =>, as in t(Q => b)
taker _ _ int|literal|TRUE|FALSE|NOT|(|- _ the variable that takes an output stands behind =>, and an input is given with :=
taken _ _ beside _ a name has no blanks in it, and arguments have a ',' between them
taken _ _ .|[ _ an output is handed to a variable, which => has behind it alone
member _ _ ( _ an instance is called by its name alone, as in t(IN := a);
member _ _ int _ a bit of a number has no name
member _ _ PART _ behind a '.' stands the name of an output, and a statement ends with a ';'
member _ _ _ _ the name of an output is missing before it, as in t.Q
label _ OF CASE int|- a label of a CASE stands alone, as in 2:
label _ OF CASE _ the CASE above it has no label: does the line stand here twice?
labelled _ _ IF|CASE|FOR _ a ':' stands behind a label, as in 2:
labelled _ _ OR|AND|& _ labels have a ',' between them, as in 1, 2:
labelled _ _ -|. int|.|- labels from one to another are written 1..3
controlled _ _ = _ a FOR is written FOR i := 1 TO 8 DO
addressed _ _ ,|.|.. int the numbers of an address have one point between them, and no blanks, as in %QX0.0
declared _ _ .. _ names have a ',' between them, and each is written
declared _ _ <|> word names have a ',' between them
declared _ _ . word names have a ',' between them, and no '.' stands in one
declared _ _ -|/|. _ a name has letters, digits and underscores alone
head _ word -|/|. _ a name has letters, digits and underscores alone
declared _ _ block _ a : is missing before the kind
declared _ block word ;|:= a declaration begins with the name, as in t : TON;
declared _ _ remark _ words side by side are no declaration; a remark is written // .. or (* .. *)
declared _ _ noted _ the word above it is no declaration; a remark is written // .. or (* .. *)
declared _ _ call _ a call stands below END_VAR
declared|addressed _ _ KIND _ a : is missing before the kind
declared VAR_GLOBAL _ AT _ an address has one global alone, as in pump AT %QX0.0 : BOOL
declared _ _ AT _ globals alone have addresses
declared _ _ word|int :|,|AT names have a ',' between them, and no blank in them
declared _ _ word ;|:= a declaration is a name, a : and a kind, as in n : DINT;
declared _ _ address _ AT is missing before it
declaration|name|declared _ _ KEYWORD :|:=|, it is a keyword, and can't be a name
declaration _ ; ; _ a declaration ends with one ';'
declaration _ _ marked _ no sign stands before a declaration
declaration _ _ int _ no declaration begins with a number
declaration _ _ KIND _ a declaration begins with the name, as in n : DINT;
declaration|kinded|kind _ _ AT|address _ an address stands between the name and the kind, as in pump AT %QX0.0 : BOOL
kinded _ _ another _ a declaration has one kind
kinded _ _ =|:|. int|literal|-|TRUE|FALSE|=|:|:= an initial value is written :=
kinded _ _ = _ an initial value is written :=
kinded _ _ :|. _ a declaration ends with a ';'
declaration _ ; = _ an initial value is written :=
valued SECTION _ :|, _ a declaration ends with a ';'
kinded _ _ , _ a declaration ends with a ';'
kinded _ KIND ( _ there are no subranges: behind a kind stands a ';' or an initial value
kinded _ _ ( _ behind a kind stands a ';' or an initial value; a call gives arguments, as t(IN := a);
kinded _ _ int|literal _ an initial value stands behind :=
name _ _ : _ a name is missing before it, or a ',' is too many
address _ _ word _ an address begins with %, as in %IX0.0
kind _ _ word _ what has an address is a BOOL, a DINT or a TIME
title _ _ SECTION _ the name of the unit is missing before it
title _ _ KEYWORD _ it is a keyword, and can't be a name
declaration|top|behind _ _ - _ a remark is written // .. or (* .. *)
head _ word ( _ a unit has no parentheses behind its name
head _ word := _ the word before it is the name of the unit: is that missing?
head _ word : _ no : and no kind stand behind the name of a unit
head _ _ : _ no : stands here; statements begin at once
head _ word UNIT _ the line above it begins a unit already, which has no END
head _ _ VAR_GLOBAL _ globals stand above all blocks and programs of their source, and in none of them
head PROGRAM _ SECTION _ a PROGRAM has no inputs and no outputs: it reads and assigns globals
top|behind _ _ program _ PROGRAM and the name of the program are missing before it
top|behind _ _ block _ FUNCTION_BLOCK and the name of the block are missing before it
top|behind _ _ program's _ PROGRAM is missing before it
top|behind _ _ block's _ FUNCTION_BLOCK is missing before it
top|behind _ _ END_PROGRAM _ no PROGRAM is open here
top|behind _ _ END_FUNCTION_BLOCK _ no FUNCTION_BLOCK is open here
ended _ CLOSING IF|CASE|FOR ; the keyword before it closes the statement already
behind _ _ ; _ no ';' stands behind the END of a unit
behind _ _ . _ no '.' stands behind the END of a unit
behind _ _ VAR_GLOBAL _ globals stand above all blocks and programs of their source
top|behind _ _ SECTION _ outside of blocks and programs variables stand in VAR_GLOBAL, above all of them
top|behind _ _ IF|CASE|FOR _ statements stand in a PROGRAM or a FUNCTION_BLOCK
top _ _ word AT VAR_GLOBAL is missing before it
top|behind _ _ word :=|( statements stand in a PROGRAM or a FUNCTION_BLOCK
behind _ _ word _ behind the END of a unit stands no name
_ _ _ address _ an address stands in a declaration of VAR_GLOBAL alone: elsewhere stands the global's name
";

/// What is said of a token that might stand where it does, by the word for that, were it not too deep.
const DEEP: &str = "\
statement word|;|IF|CASE|FOR a statement stands in at most 63 others, and this one in more
value word|int|literal|(|-|NOT|TRUE|FALSE an expression is at most 128 deep, and this one gets deeper here: each operator of a row is one more
valued +|-|*|/|=|<>|<|>|<=|>=|&|AND|OR|XOR|MOD an expression is at most 128 deep, and this one gets deeper here: each operator of a row is one more
";

/// What is wanted where a token stands, by the word for that, what opens the statements around it, and the parenthesis or the head in which it stands.
const WANTED: &str = "\
top _ _ VAR_GLOBAL, FUNCTION_BLOCK or PROGRAM is wanted here
behind _ _ FUNCTION_BLOCK, PROGRAM or the end of the source is wanted here
title|name _ _ a name is wanted here
head _ _ VAR, a statement or the END of the unit is wanted here
declaration _ _ the name of a variable or END_VAR is wanted here
declared _ _ a : and a kind are wanted here, as in n : DINT
address _ _ an address is wanted here, as in pump AT %QX0.0 : BOOL
addressed _ _ a : and a kind are wanted here, as in pump AT %QX0.0 : BOOL
kind _ _ a kind is wanted here: BOOL, DINT, TIME or the name of a block
kinded _ _ a ';', or := and an initial value, is wanted here
statement IF _ a statement, ELSIF, ELSE or END_IF is wanted here
statement CASE _ a statement, a label, ELSE or END_CASE is wanted here
statement FOR _ a statement or END_FOR is wanted here
statement FUNCTION_BLOCK _ a statement or END_FUNCTION_BLOCK is wanted here
statement none|PROGRAM _ a statement or END_PROGRAM is wanted here
begun _ _ a statement assigns or calls, as in n := 1; or t(IN := a);
assigned _ _ a := and a value stand behind an element that is assigned, as in w[1] := 2;
ended _ _ a ';' is wanted here
control _ _ the name of a variable is wanted here, as in FOR i := 1 TO 8 DO
controlled _ _ a := is wanted here, as in FOR i := 1 TO 8 DO
label _ _ a label of a CASE is wanted here, a whole number as in 2: or -1:
labelled _ _ a ':' is wanted here, or a ',' or '..' and another label
argument _ _ the name of an argument is wanted here, as in t(IN := a, Q => b)
argued _ _ a := or a => is wanted here, as in t(IN := a, Q => b)
taker _ _ the name of the variable that takes the output is wanted here
taken _ _ a ',' or a ')' is wanted here
value _ _ a value is wanted here
valued _ call an operator, a ',' or a ')' is wanted here
valued _ ( an operator or a ')' is wanted here
valued _ IF|ELSIF an operator or THEN is wanted here
valued _ CASE an operator or OF is wanted here
valued _ TO an operator, BY or DO is wanted here
valued _ BY an operator or DO is wanted here
valued _ FOR an operator or TO is wanted here
valued _ _ an operator or a ';' is wanted here
";

/// What is said of a token where it is too deep; empty of any other one.
pub fn too_deep(place: TokenPlace<'_>) -> &'static str {
    let stand = place.stand();
    said_of(DEEP, &[stand, told_sign(place, stand)])
}

/// What is said of a token where an argument has to stand.
fn said_of_argument(place: TokenPlace<'_>) -> &'static str {
    let called = place.parenthesis().map(|open| open.previous());
    if called.is_none_or(is_variable) {
        "an argument is written with its name, as in t(IN := a, Q => b)"
    } else {
        "there are no functions: an instance is called by its own name, and so is each argument, as in t(IN := a, Q => b)"
    }
}

/// What is said of a token by where it stands and what stands beside it; empty where that says nothing.
pub fn told_by_place(place: TokenPlace<'_>) -> &'static str {
    let (stand, behind) = (place.stand(), place.behind(1));
    let (before, sign) = (told_before(place), told_sign(place, stand));
    let is_named = fits("none|;|=|:|OF|OUTER", sign)
        || fits("KEYWORD", sign) && fits(":=|=>", behind);
    match said_of(RULES, &[stand, place.opener(), before, sign, behind]) {
        "" if fits("argument|argued", stand) && !is_named => said_of_argument(place),
        told => told,
    }
}

/// What may stand in the place of a token.
pub fn wanted(place: TokenPlace<'_>) -> &'static str {
    said_of(WANTED, &[place.stand(), place.opener(), place.within()])
}
