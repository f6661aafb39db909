//! Sources, the trees that they are read as, and the texts that these are spelled as.

ghost use Rattle.std.specs.Prelude.{◌≤◌, length};

use aqe_lexer::tokens;
use aqe_syntax::{parse, spell};
use aqe_trees::{CoreTree, JoinedTree, QueryTree, Script, SelectTree, Stmt};
use std::alloc::{AllocError, Global};

/// A joined item of FROM: its kinds of join, each with whether it has a condition.
fn joined_text(alloc: Global, joined: &JoinedTree) -> Result<String, AllocError> {
    let mut text = String::new(alloc);
    for step in joined.rest.as_slice() {
        let on = matches!(step.on, Some(_));
        let one = format!(in alloc; " {:?} {on}", step.kind)?;
        text.push_str(one.as_str())?;
    }
    Ok(text)
}

/// The parts of a SELECT, most by their number.
fn select_text(alloc: Global, select: &SelectTree) -> Result<String, AllocError> {
    let mut joins = String::new(alloc);
    for joined in select.from.as_slice() {
        let one = joined_text(alloc, joined)?;
        joins.push_str(one.as_str())?;
    }
    let filter = matches!(select.filter, Some(_));
    let having = matches!(select.having, Some(_));
    format!(in alloc;
        "select {} items {} from {}{joins} where {filter} group {} having {having}",
        select.distinct,
        select.items.len(),
        select.from.len(),
        select.group.len()
    )
}

/// A SELECT, or a pair of parentheses.
fn core_text(alloc: Global, core: &CoreTree) -> Result<String, AllocError> {
    match core {
        CoreTree::Paren(_) => String::from_str(alloc, "paren"),
        CoreTree::Select(select) => select_text(alloc, select),
    }
}

/// A query: its cores with whether equal rows count once, its sorts, its bounds.
fn query_text(alloc: Global, query: &QueryTree) -> Result<String, AllocError> {
    let mut text = core_text(alloc, &query.body.first)?;
    for (once, core) in query.body.rest.as_slice() {
        let next = core_text(alloc, core)?;
        let one = format!(in alloc; " union {once} {next}")?;
        text.push_str(one.as_str())?;
    }
    for sort in query.order.as_slice() {
        let one = format!(in alloc; " sort {} {}", sort.descending, sort.nulls_last)?;
        text.push_str(one.as_str())?;
    }
    if let Some(limit) = query.limit {
        let one = format!(in alloc; " limit {limit}")?;
        text.push_str(one.as_str())?;
    }
    if let Some(offset) = query.offset {
        let one = format!(in alloc; " offset {offset}")?;
        text.push_str(one.as_str())?;
    }
    Ok(text)
}

/// A statement.
fn statement_text(alloc: Global, one: &Stmt) -> Result<String, AllocError> {
    match one {
        Stmt::Query(query) => query_text(alloc, query),
        Stmt::Set(form) => format!(in alloc;
            "set {} to {}",
            form.key.as_str(),
            form.value.as_str()
        ),
        Stmt::CreateTable(form) => {
            let mut text = format!(in alloc;
                "table {} at {}",
                form.name.as_str(),
                form.location.as_str()
            )?;
            for (name, kind) in form.columns.slice() {
                let one = format!(in alloc; " {} {kind:?}", name.as_str())?;
                text.push_str(one.as_str())?;
            }
            for (key, value) in form.options.slice() {
                let one = format!(in alloc; " {}={}", key.as_str(), value.as_str())?;
                text.push_str(one.as_str())?;
            }
            Ok(text)
        }
    }
}

/// The statements of a script, each with a bar behind it.
fn script_text(alloc: Global, script: &Script) -> Result<String, AllocError> {
    let mut text = String::new(alloc);
    for one in script.slice() {
        let shown = statement_text(alloc, one)?;
        text.push_str(shown.as_str())?;
        text.push('|')?;
    }
    Ok(text)
}

/// What the source is read as.
fn shown(alloc: Global, source: &str) -> Result<String, AllocError> {
    if source.len() > 1000 {
        return String::from_str(alloc, "too long for a test");
    }
    match tokens(alloc, source.as_bytes()) {
        Ok(tokens) => match parse(alloc, source.as_bytes(), &tokens) {
            Ok(script) => script_text(alloc, &script),
            Err(fault) => format!(in alloc; "{fault:?}"),
        },
        Err(fault) => format!(in alloc; "{fault:?}"),
    }
}

#[test]
fn reads_queries(rt: HostRuntime) -> Result<(), AllocError> {
    let alloc = rt.alloc();
    let plain = "select false items 1 from 0 where false group 0 having false|";
    let cases: [(&str, &str); 16] = [
        ("", ""),
        (";; ;", ""),
        ("SELECT 1", plain),
        ("select all 1;", plain),
        (
            "SELECT DISTINCT *, t.*, a AS b, c d FROM t",
            "select true items 4 from 1 where false group 0 having false|",
        ),
        (
            "SELECT 1 FROM t WHERE a GROUP BY b, c HAVING d",
            "select false items 1 from 1 where true group 2 having true|",
        ),
        (
            "SELECT 1 FROM t u, (SELECT 1) AS v, w",
            "select false items 1 from 3 where false group 0 having false|",
        ),
        (
            "SELECT 1 FROM a JOIN b ON c INNER JOIN d CROSS JOIN e ON f",
            "select false items 1 from 1 Inner true Inner false Cross true where false group 0 having false|",
        ),
        (
            "SELECT 1 FROM a LEFT JOIN b LEFT OUTER JOIN c RIGHT JOIN d RIGHT OUTER JOIN e FULL JOIN f FULL OUTER JOIN g",
            "select false items 1 from 1 LeftOuter false LeftOuter false RightOuter false RightOuter false FullOuter false FullOuter false where false group 0 having false|",
        ),
        (
            "SELECT 1 FROM a LEFT SEMI JOIN b SEMI JOIN c LEFT ANTI JOIN d ANTI JOIN e",
            "select false items 1 from 1 LeftSemi false LeftSemi false LeftAnti false LeftAnti false where false group 0 having false|",
        ),
        (
            "SELECT 1 FROM a `LEFT` JOIN b",
            "select false items 1 from 1 Inner false where false group 0 having false|",
        ),
        (
            "(SELECT 1) UNION (SELECT 2) UNION ALL (SELECT 3) UNION DISTINCT (SELECT 4)",
            "paren union true paren union false paren union true paren|",
        ),
        (
            "(SELECT 1) ORDER BY a, b ASC, c DESC, d NULLS LAST, e DESC NULLS FIRST",
            "paren sort false false sort false false sort true true sort false true sort true false|",
        ),
        ("(SELECT 1) LIMIT 5L", "paren limit 5|"),
        (
            "(SELECT 1) LIMIT 9223372036854775807 OFFSET 3",
            "paren limit 9223372036854775807 offset 3|",
        ),
        ("(SELECT 1) OFFSET 0", "paren offset 0|"),
    ];
    for (source, wanted) in cases {
        let text = shown(alloc, source)?;
        assert_eq!(rt; text.as_str(), wanted, "{source}");
    }
    Ok(())
}

#[test]
fn reads_tables_and_settings(rt: HostRuntime) -> Result<(), AllocError> {
    let alloc = rt.alloc();
    let cases: [(&str, &str); 8] = [
        (
            "CREATE TABLE t (a INT, b integer, c BIGINT, d long, e STRING, `f` boolean) USING csv LOCATION 'p'",
            "table t at p a Int b Int c BigInt d BigInt e Text f Boolean|",
        ),
        (
            "create table `int` (a int) using CSV options (header true, 'sep' = ';', x FALSE) location \"p\"",
            "table int at p a Int header=true sep=; x=false|",
        ),
        (
            "CREATE TABLE t (a INT) USING csv LOCATION 'p' OPTIONS (header = 'yes')",
            "table t at p a Int header=yes|",
        ),
        ("SET a.b.c = 64MB", "set a.b.c to 64MB|"),
        ("SET select.x = 'it\\'s'", "set select.x to it's|"),
        ("SET a = 'x' 1", "set a to 'x' 1|"),
        (
            "SET a = 1 ; SET b = 9223372036854775808",
            "set a to 1|set b to 9223372036854775808|",
        ),
        (";SET a=b--;\n;;", "set a to b|"),
    ];
    for (source, wanted) in cases {
        let text = shown(alloc, source)?;
        assert_eq!(rt; text.as_str(), wanted, "{source}");
    }
    Ok(())
}

/// How the source is spelled.
fn spelled(alloc: Global, source: &str) -> Result<String, AllocError> {
    if source.len() > 1000 {
        return String::from_str(alloc, "too long for a test");
    }
    let Ok(tokens) = tokens(alloc, source.as_bytes()) else {
        return String::from_str(alloc, "no tokens");
    };
    let Ok(script) = parse(alloc, source.as_bytes(), &tokens) else {
        return String::from_str(alloc, "no script");
    };
    match spell(alloc, &script) {
        Ok(text) => lossy(alloc, text.slice()),
        Err(_) => String::from_str(alloc, "no memory"),
    }
}

fn lossy(alloc: Global, bytes: &[u8]) -> Result<String, AllocError> {
    match std::str::from_utf8(bytes) {
        Ok(text) => String::from_str(alloc, text),
        Err(_) => String::from_str(alloc, "no text"),
    }
}

#[test]
fn spells_what_it_reads(rt: HostRuntime) -> Result<(), AllocError> {
    let alloc = rt.alloc();
    let cases: [(&str, &str); 9] = [
        ("", ""),
        (
            "SELECT _a1, `order`, `x``y`, `1a` FROM t `On`",
            "SELECT _a1 , `order` , `x``y` , `1a` FROM t AS `On` ;\n",
        ),
        (
            "SELECT 'it\\'s \\\\ \"é\"', -9223372036854775808l, 0",
            "SELECT 'it\\'s \\\\ \"é\"' , - 9223372036854775808L , 0 ;\n",
        ),
        (
            "SET spark.x = '64MB -- \\''; create table table (a int, b string) using csv options (header true) location 'd'",
            "SET spark.x = '64MB -- \\'' ;\nCREATE TABLE table ( a INT , b STRING ) USING CSV OPTIONS ( 'header' 'true' ) LOCATION 'd' ;\n",
        ),
        (
            "SELECT DISTINCT CASE a WHEN 1 THEN 'x' ELSE NULL END FROM t LEFT OUTER JOIN u ON a == b WHERE NOT a IN (1, 2) UNION ALL (SELECT *) ORDER BY a DESC NULLS FIRST LIMIT 3",
            "SELECT DISTINCT CASE a WHEN 1 THEN 'x' ELSE NULL END FROM t LEFT JOIN u ON a = b WHERE NOT a IN ( 1 , 2 ) UNION ALL ( SELECT * ) ORDER BY a DESC NULLS FIRST LIMIT 3 ;\n",
        ),
        (
            "SELECT a FROM (SELECT a FROM s ORDER BY a) WHERE a > 1 LIMIT 2",
            "SELECT a FROM ( SELECT a FROM s ORDER BY a ) WHERE a > 1 LIMIT 2 ;\n",
        ),
        ("/* /* */ */ select a - -1 -- end\n;", "SELECT a - - 1 ;\n"),
        (
            "SELECT not NOT a, x not in (1), CASE a WHEN 1 THEN 2 END",
            "SELECT NOT NOT a , x NOT IN ( 1 ) , CASE a WHEN 1 THEN 2 END ;\n",
        ),
        (
            "SELECT a BETWEEN b AND c AND d, count(*), 'é'",
            "SELECT a BETWEEN b AND c AND d , count ( * ) , 'é' ;\n",
        ),
    ];
    for (source, wanted) in cases {
        let text = spelled(alloc, source)?;
        assert_eq!(rt; text.as_str(), wanted, "{source}");
        let again = spelled(alloc, wanted)?;
        assert_eq!(rt; again.as_str(), wanted, "{source}");
    }
    Ok(())
}
